// Translate (request 2).
use questions::Refusal;
use rungs::Slices;
use test_requests::input::{Bad, Input};
use test_requests::output::Output;
use test_requests::parts::{MOST_RECORDS, MOST_WORDS, Records};
use translation_definitions::Counts;

// What Translate and the list reader answer.
pub fn put_translated(output: &mut Output, answer: Result<Counts, Refusal>) {
    match answer {
        Ok(counts) => output.put(format_args!(
            "1 {} {} {}",
            counts.instructions, counts.rungs, counts.longest
        )),
        Err(refusal) => output.refusal(refusal),
    }
}

// What is put where no turn is made.
pub const NONE_TRANSLATED: Counts = Counts {
    instructions: 0,
    rungs: 0,
    longest: 0,
};

// Calls Translate on what was read, and puts the last answer.
fn answer_translate(
    output: &mut Output,
    vars: u32,
    ladder: Slices,
    times: &[u32],
    code: &mut [u32],
    records: &mut Records,
    turns: u32,
) {
    let mut list = records.buffers(code);
    let mut answer = Ok(NONE_TRANSLATED);
    for _ in 0..turns {
        answer = translation::translate(vars, ladder, times, &mut list);
    }
    put_translated(output, answer);
    output.buffer(code, u32::MAX);
    output.records(records);
    output.byte(b'\n');
}

// Translate, from the number after the request's on.
pub fn answer(input: &mut Input, output: &mut Output, turns: u32) -> Result<(), Bad> {
    let mut words = [0; MOST_WORDS];
    let mut code = [u32::MAX; MOST_WORDS];
    let vars = input.next()?;
    let words = input.items(&mut words)?;
    let mut rungs = input.records()?;
    let n = input.count(MOST_WORDS)?;
    let mut records = Records::filled(input.count(MOST_RECORDS)?);
    input.line_end()?;
    let (ladder, times) = rungs.lend(words);
    let code = &mut code[..n];
    answer_translate(output, vars, ladder, times, code, &mut records, turns);
    Ok(())
}
