// Answers test requests for the six calls and for the search for a label, one a line, until the input ends; each call is made a given
// number of times, on a fresh copy of what it changes. A malformed or oversized request ends the answers with a line that says so.
#![tactic(auto)]

use test_requests::input::{Bad, Input};
use test_requests::output::Output;
use test_scan_answers::Kind;

mod lists;
mod readings;
mod searches;
mod texts;
mod translations;

// As many as no run uses up.
const MOST_REQUESTS: u64 = 4000000000;

const MOST_TEXT_BYTES: usize = 70000;

const MOST_NAME_BYTES: usize = 120;

#[derive(Clone, Copy)]
enum Request {
    Read,
    Translate,
    Scan(Kind),
    Listing,
    Search,
    ReadList,
}

// By its number, as docs/FORMAT.md gives it.
impl TryFrom<u32> for Request {
    type Error = Bad;

    fn try_from(number: u32) -> Result<Request, Bad> {
        match number {
            1 => Ok(Request::Read),
            2 => Ok(Request::Translate),
            3 => Ok(Request::Scan(Kind::Ladder)),
            4 => Ok(Request::Scan(Kind::List)),
            5 => Ok(Request::Listing),
            6 => Ok(Request::Search),
            7 => Ok(Request::ReadList),
            _ => Err(Bad),
        }
    }
}

// The next request, if the input is not at its end: `turns` times its call, and the last answer. Tells whether there was one.
fn answer_next(input: &mut Input, output: &mut Output, turns: u32) -> Result<bool, Bad> {
    let Some(number) = input.first()? else {
        return Ok(false);
    };
    match Request::try_from(number)? {
        Request::Read => texts::answer(input, output, turns)?,
        Request::Translate => translations::answer(input, output, turns)?,
        Request::Scan(kind) => test_scan_answers::answer(kind, input, output, turns)?,
        Request::Listing => lists::answer(input, output, turns)?,
        Request::Search => searches::answer(input, output, turns)?,
        Request::ReadList => readings::answer(input, output, turns)?,
    }
    Ok(true)
}

fn answer_each(input: &mut Input, output: &mut Output) -> Result<(), Bad> {
    for _ in 0..MOST_REQUESTS {
        if !answer_next(input, output, 1)? {
            break;
        }
    }
    Ok(())
}

fn answer_repeated(input: &mut Input, output: &mut Output) -> Result<(), Bad> {
    let turns = input.first()?.ok_or(Bad)?;
    input.line_end()?;
    answer_next(input, output, turns)?;
    Ok(())
}

// Says of a bad request that it was one.
fn conclude(output: &mut Output, answered: Result<(), Bad>) {
    if let Err(Bad) = answered {
        output.bytes(b"bad request\n");
    }
    output.flush();
}

// All requests, up to the first bad one.
pub fn answer_all(input: &mut Input, output: &mut Output) {
    let answered = answer_each(input, output);
    conclude(output, answered);
}

// The number of turns, and one request.
pub fn answer_turns(input: &mut Input, output: &mut Output) {
    let answered = answer_repeated(input, output);
    conclude(output, answered);
}
