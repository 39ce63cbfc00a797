// Answers test requests for Ladder scan and List scan, which have one form: a ladder or a list, the table, the watchdog, the timers and the
// tick.
#![tactic(auto)]

use scan::{Answer, MOST_TABLE_BYTES, Scan};
use table::Halt;
use test_requests::input::{Bad, Input};
use test_requests::output::Output;
use test_requests::parts::MOST_WORDS;

mod scan;

pub use scan::Kind;

// How an answer begins that is no refusal, and its counts.
fn halted<C>(halt: Halt<C>) -> (u8, C) {
    match halt {
        Halt::Ended(counts) => (1, counts),
        Halt::Stopped(counts) => (2, counts),
    }
}

fn put_ladder(output: &mut Output, halt: Halt<ladder_definitions::Counts>) {
    let (ending, counts) = halted(halt);
    output.put(format_args!("{ending} {} {}", counts.rungs, counts.moved));
}

fn put_list(output: &mut Output, halt: Halt<list_definitions::Counts>) {
    let (ending, counts) = halted(halt);
    output.put(format_args!(
        "{ending} {} {} {}",
        counts.instructions, counts.rungs, counts.moved
    ));
}

fn put_answer(output: &mut Output, answer: Answer) {
    match answer {
        Answer::Ladder(Ok(halt)) => put_ladder(output, halt),
        Answer::List(Ok(halt)) => put_list(output, halt),
        Answer::Ladder(Err(refusal)) | Answer::List(Err(refusal)) => output.refusal(refusal),
    }
}

// A scan of this kind, from the number after the request's on. Only a List scan changes the times entered.
pub fn answer(kind: Kind, input: &mut Input, output: &mut Output, turns: u32) -> Result<(), Bad> {
    let mut words = [0; MOST_WORDS];
    let mut table = [0; MOST_TABLE_BYTES];
    let vars = input.next()?;
    let words = input.items(&mut words)?;
    let mut records = input.records()?;
    let bytes = input.items(&mut table)?.len();
    let watchdog = input.next()?;
    let mut timers = input.timers()?;
    let tick = input.next()?;
    input.line_end()?;
    let table = &mut table[..bytes];
    let (lent, times) = records.lend(words);
    let scan = Scan {
        kind,
        vars,
        lent,
        watchdog,
        tick,
    };
    let answer = scan.turns(times, table, &mut timers, turns);
    put_answer(output, answer);
    output.items(table);
    if kind == Kind::List {
        output.items(times);
    }
    output.timers(&timers);
    output.byte(b'\n');
    Ok(())
}
