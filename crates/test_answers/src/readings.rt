// The list reader (request 7).
use crate::translations::{NONE_TRANSLATED, put_translated};
use crate::{MOST_NAME_BYTES, MOST_TEXT_BYTES};
use test_requests::input::{Bad, Input};
use test_requests::output::Output;
use test_requests::parts::{MOST_RECORDS, MOST_WORDS, Records};

// Calls the reader on what was read, and puts the last answer.
fn answer_reader(
    output: &mut Output,
    vars: u32,
    text: &[u8],
    names: &[u8],
    code: &mut [u32],
    records: &mut Records,
    turns: u32,
) {
    let mut list = records.buffers(code);
    let mut answer = Ok(NONE_TRANSLATED);
    for _ in 0..turns {
        answer = reader::read_list(vars, text, names, &mut list);
    }
    put_translated(output, answer);
    output.buffer(code, u32::MAX);
    output.records(records);
    output.byte(b'\n');
}

// The list reader, from the number after the request's on.
pub fn answer(input: &mut Input, output: &mut Output, turns: u32) -> Result<(), Bad> {
    let mut text = [0; MOST_TEXT_BYTES];
    let mut names = [0; MOST_NAME_BYTES];
    let mut code = [u32::MAX; MOST_WORDS];
    let vars = input.next()?;
    let text = input.items(&mut text)?;
    let n = input.count(MOST_WORDS)?;
    let mut records = Records::filled(input.count(MOST_RECORDS)?);
    let names = input.items(&mut names)?;
    input.line_end()?;
    answer_reader(
        output,
        vars,
        text,
        names,
        &mut code[..n],
        &mut records,
        turns,
    );
    Ok(())
}
