// Read (request 1).
use crate::MOST_TEXT_BYTES;
use questions::Refusal;
use test_requests::input::{Bad, Input};
use test_requests::output::Output;
use test_requests::parts::{MOST_RECORDS, MOST_WORDS, Records};
use text_definitions::Counts;

fn put_read(output: &mut Output, answer: Result<Counts, Refusal>) {
    match answer {
        Ok(counts) => output.put(format_args!("1 {} {}", counts.words, counts.rungs)),
        Err(refusal) => output.refusal(refusal),
    }
}

// Calls Read on what was read, and puts the last answer.
fn answer_read(
    output: &mut Output,
    vars: u32,
    text: &[u8],
    words: &mut [u32],
    records: &mut Records,
    turns: u32,
) {
    let mut buffers = records.buffers(words);
    let mut answer = Ok(Counts { words: 0, rungs: 0 });
    for _ in 0..turns {
        answer = text::read(vars, text, &mut buffers);
    }
    put_read(output, answer);
    output.buffer(words, u32::MAX);
    output.records(records);
    output.byte(b'\n');
}

// Read, from the number after the request's on.
pub fn answer(input: &mut Input, output: &mut Output, turns: u32) -> Result<(), Bad> {
    let mut text = [0; MOST_TEXT_BYTES];
    let mut words = [u32::MAX; MOST_WORDS];
    let vars = input.next()?;
    let text = input.items(&mut text)?;
    let n = input.count(MOST_WORDS)?;
    let mut records = Records::filled(input.count(MOST_RECORDS)?);
    input.line_end()?;
    answer_read(output, vars, text, &mut words[..n], &mut records, turns);
    Ok(())
}
