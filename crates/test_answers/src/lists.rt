// Listing (request 5).
use crate::MOST_NAME_BYTES;
use questions::Refusal;
use rungs::Slices;
use test_requests::input::{Bad, Input};
use test_requests::output::Output;
use test_requests::parts::MOST_WORDS;

const MOST_LISTING_BYTES: usize = 70000;

fn put_listed(output: &mut Output, answer: Result<usize, Refusal>) {
    match answer {
        Ok(bytes) => output.put(format_args!("1 {bytes}")),
        Err(refusal) => output.refusal(refusal),
    }
}

// Calls Listing on what was read, and puts the last answer.
fn answer_listing(
    output: &mut Output,
    vars: u32,
    list: Slices,
    times: &[u32],
    names: &[u8],
    lines: &mut [u8],
    turns: u32,
) {
    let mut answer = Ok(0);
    for _ in 0..turns {
        answer = list::listing(vars, list, times, names, lines);
    }
    put_listed(output, answer);
    output.buffer(lines, u8::MAX);
    output.byte(b'\n');
}

// Listing, from the number after the request's on.
pub fn answer(input: &mut Input, output: &mut Output, turns: u32) -> Result<(), Bad> {
    let mut code = [0; MOST_WORDS];
    let mut names = [0; MOST_NAME_BYTES];
    let mut lines = [u8::MAX; MOST_LISTING_BYTES];
    let vars = input.next()?;
    let code = input.items(&mut code)?;
    let mut records = input.records()?;
    let bytes = input.count(MOST_LISTING_BYTES)?;
    let names = input.items(&mut names)?;
    input.line_end()?;
    let (list, times) = records.lend(code);
    let lines = &mut lines[..bytes];
    answer_listing(output, vars, list, times, names, lines, turns);
    Ok(())
}
