// What test_case_a_rows prints: what the calls over rows answered and left, and what a search told.
#![tactic(auto)]

use questions::Refusal;
use rungs::Search;
use table::Halt;
use test_requests::output::Output;

// V of each of the program's ladders.
pub const VARS: u32 = 5;

fn put_refusal(output: &mut Output, refusal: Refusal) {
    output.put(format_args!(" refused {} place {}", refusal.number(), refusal.place()));
}

// What Read answered.
pub fn put_read(output: &mut Output, answer: Result<text_definitions::Counts, Refusal>) {
    output.put("read");
    match answer {
        Ok(counts) => output.put(format_args!(" words {} rungs {}", counts.words, counts.rungs)),
        Err(refusal) => put_refusal(output, refusal),
    }
}

// What Translate answered.
pub fn put_translated(
    output: &mut Output,
    answer: Result<translation_definitions::Counts, Refusal>,
) {
    output.put("\ntranslate");
    match answer {
        Ok(counts) => output.put(format_args!(
            " instructions {} rungs {} longest {}",
            counts.instructions, counts.rungs, counts.longest
        )),
        Err(refusal) => put_refusal(output, refusal),
    }
}

// How a scan halted, and its counts.
fn halted<C>(halt: Halt<C>) -> (&'static str, C) {
    match halt {
        Halt::Ended(counts) => ("ended", counts),
        Halt::Stopped(counts) => ("stopped", counts),
    }
}

fn put_ladder_halt(output: &mut Output, halt: Halt<ladder_definitions::Counts>) {
    let (how, counts) = halted(halt);
    output.put(format_args!(" {how}, rungs {} moved {}", counts.rungs, counts.moved));
}

fn put_list_halt(output: &mut Output, halt: Halt<list_definitions::Counts>) {
    let (how, counts) = halted(halt);
    output.put(format_args!(
        " {how}, rungs {} moved {} instructions {}",
        counts.rungs, counts.moved, counts.instructions
    ));
}

fn put_variables(output: &mut Output, table: &[u8]) {
    output.put("\nvariables");
    for value in table.iter().take(VARS as usize) {
        output.next(*value);
    }
}

// What Ladder scan answered, and the variables that it left.
pub fn put_ladder_scan(
    output: &mut Output,
    answer: Result<Halt<ladder_definitions::Counts>, Refusal>,
    table: &[u8],
) {
    output.put("\nladder scan");
    match answer {
        Ok(halt) => put_ladder_halt(output, halt),
        Err(refusal) => put_refusal(output, refusal),
    }
    put_variables(output, table);
}

// What List scan answered, and the variables that it left.
pub fn put_list_scan(
    output: &mut Output,
    answer: Result<Halt<list_definitions::Counts>, Refusal>,
    table: &[u8],
) {
    output.put("\nlist scan");
    match answer {
        Ok(halt) => put_list_halt(output, halt),
        Err(refusal) => put_refusal(output, refusal),
    }
    put_variables(output, table);
}

// The numbers of timer records.
pub fn put_timers(output: &mut Output, timers: &[u32]) {
    output.put("\ntimers");
    output.items(timers);
}

// What Listing answered, and the bytes that it wrote.
pub fn put_listed(output: &mut Output, answer: Result<usize, Refusal>, listing: &[u8]) {
    output.put("\nlisting");
    match answer {
        Ok(bytes) => {
            output.put(format_args!(" bytes {bytes}\n"));
            output.bytes(listing.get(..bytes).unwrap_or(&[]));
        }
        Err(refusal) => {
            put_refusal(output, refusal);
            output.byte(b'\n');
        }
    }
}

// What the search for a label told.
pub fn put_search(output: &mut Output, label: u32, answer: Search) {
    output.put(format_args!("search {label}"));
    match answer.place {
        Some(place) => output.put(format_args!(" place {place} looked {}", answer.looked)),
        None => output.put(format_args!(" none looked {}", answer.looked)),
    }
}
