// What the program ladder-scan comes to, from the whole input: both scans of a ladder and its list side by side. README, "ladder-scan".
#![tactic(auto)]

ghost use Rattle.rungs.specs.Buffers.{buffers};
ghost use Rattle.ladder_definitions.specs.Kept.{kept_in};
ghost use Rattle.translation_definitions.specs.BothScans.{lends, paired_scans, BothScansDone};
ghost use Rattle.program_definitions.specs.Outcome.{Done, PlacedWithin};
ghost use Rattle.program_definitions.specs.Scanout.{most_report, kept_scanned, text_scanned, rest_scanned, outcome};

use both_scans::{Memory, paired_scans};
use ladder_kinds::MOST_WORDS;
use list_ops::MOST_INSTRUCTIONS;
use program_numbers::{MOST_KEPT, kept_end, take_number};
use program_scan_lines::{MOST_REST, MOST_TABLE};
use program_scan_report::put_report;
use program_timer_lines::HELD_NUMBERS;
use questions::{MOST_VARIABLES, Refusal};
use rungs::{Buffers, MOST_RECORDS, Slices};
use translation_definitions::BothEnds;

// A report fits here: 64 bytes for each variable and for 512 lines besides, of which 256 for rungs and 128 for timers.
pub const MOST_REPORT: usize = 64 * (MOST_VARIABLES as usize + 512);

// Both scans, each on a copy in two slices lent. They are parameters, for the check doesn't know what stands in parts of arrays that a
// `Memory` was lent.
fn scan_copies(
    vars: u32,
    ladder: Slices,
    times: &[u32],
    table: &[u8],
    timers: &[u32],
    tick: u32,
    ladder_table: &mut [u8],
    list_table: &mut [u8],
    ladder_timers: &mut [u32],
    list_timers: &mut [u32],
    code: &mut [u32],
    labels: &mut [u16],
    offsets: &mut [u32],
    lengths: &mut [u32],
    list_times: &mut [u32],
    watchdog: u32,
) -> Result<BothEnds, Refusal>
    ensures { BothScansDone (paired_scans vars (kept_in ladder.entry times.now) table.now timers.now tick
        (lends ladder_table.old list_table.old ladder_timers.old list_timers.old
        (buffers code.old labels.old offsets.old lengths.old list_times.old)) watchdog) result
        (lends ladder_table.new list_table.new ladder_timers.new list_timers.new
        (buffers code.new labels.new offsets.new lengths.new list_times.new)) }
{
    let mut ladder_memory = Memory {
        table: ladder_table,
        timers: ladder_timers,
    };
    let mut list_memory = Memory {
        table: list_table,
        timers: list_timers,
    };
    paired_scans(
        vars,
        ladder,
        times,
        table,
        timers,
        tick,
        &mut ladder_memory,
        &mut list_memory,
        code,
        labels,
        offsets,
        lengths,
        list_times,
        watchdog,
    )
}

// A kept ladder: its list, and the report of both scans. A copy of the table or of the timer records is lent as many bytes or numbers as
// these have: a table that is too long for any V is refused 11, and records that are too many 16, their copies being shorter or not.
fn report_kept(
    vars: u32,
    ladder: Slices,
    times: &[u32],
    table: &[u8],
    timers: &[u32],
    tick: u32,
    watchdog: u32,
    out: &mut [u8],
) -> Result<usize, Refusal>
    ensures { Done (kept_scanned vars (kept_in ladder.entry times.now) table.now timers.now tick watchdog)
        out.old result out.new }
{
    let mut ladder_table = [0; MOST_TABLE];
    let mut list_table = [0; MOST_TABLE];
    let mut ladder_timers = [0; HELD_NUMBERS];
    let mut list_timers = [0; HELD_NUMBERS];
    let mut code = [0; MOST_INSTRUCTIONS];
    let mut labels = [0; MOST_RECORDS];
    let mut offsets = [0; MOST_RECORDS];
    let mut lengths = [0; MOST_RECORDS];
    let mut list_times = [0; MOST_RECORDS];
    let n = table.len().min(MOST_TABLE);
    let k = timers.len().min(HELD_NUMBERS);
    let ends = scan_copies(
        vars,
        ladder,
        times,
        table,
        timers,
        tick,
        &mut ladder_table[..n],
        &mut list_table[..n],
        &mut ladder_timers[..k],
        &mut list_timers[..k],
        &mut code,
        &mut labels,
        &mut offsets,
        &mut lengths,
        &mut list_times,
        watchdog,
    )?;
    let m = ends.counts.rungs;
    Ok(put_report(
        out,
        vars,
        ends,
        table,
        timers,
        &ladder_table[..n],
        &list_table[..n],
        &ladder_timers[..k],
        &list_timers[..k],
        &labels[..m],
        &list_times[..m],
        ladder.words,
    ))
}

// V, the rung watchdog, a table, timer records, the tick and a text.
fn report(
    vars: u32,
    watchdog: u32,
    table: &[u8],
    timers: &[u32],
    tick: u32,
    text: &[u8],
    out: &mut [u8],
) -> Result<usize, Refusal>
    ensures { Done (text_scanned vars watchdog table.now timers.now tick text.now)
        out.old result out.new × PlacedWithin most_report result }
{
    let mut words = [0; MOST_WORDS];
    let mut labels = [0; MOST_RECORDS];
    let mut offsets = [0; MOST_RECORDS];
    let mut lengths = [0; MOST_RECORDS];
    let mut times = [0; MOST_RECORDS];
    let mut buffers = Buffers {
        words: &mut words,
        labels: &mut labels,
        offsets: &mut offsets,
        lengths: &mut lengths,
        times: &mut times,
    };
    let counts = text::read(vars, text, &mut buffers)?;
    let ladder = Slices {
        words: &words,
        labels: &labels,
        offsets: &offsets,
        lengths: &lengths,
    }
    .first(counts.words, counts.rungs);
    report_kept(
        vars,
        ladder,
        &times[..counts.rungs],
        table,
        timers,
        tick,
        watchdog,
        out,
    )
}

// V, the rung watchdog, a table and the bytes after the variables line: the tick, the timer records and the text.
pub fn report_rest(
    vars: u32,
    watchdog: u32,
    table: &[u8],
    rest: &[u8],
    out: &mut [u8],
) -> Result<usize, Refusal>
    ensures { Done (rest_scanned vars watchdog table.now rest.now)
        out.old result out.new × PlacedWithin most_report result }
{
    let mut numbers = [0; HELD_NUMBERS];
    let clock = program_timer_lines::take_now(rest, 0);
    let records = program_timer_lines::take_timers(rest, clock.at, &mut numbers);
    let from = records.at;
    let to = kept_end(rest.len(), from, MOST_KEPT);
    report(
        vars,
        watchdog,
        table,
        &numbers[..records.count],
        clock.tick,
        &rest[from..to],
        out,
    )
}

// The whole input.
pub fn run(input: &[u8], out: &mut [u8]) -> Result<usize, Refusal>
    ensures { Done (outcome input.now) out.old result out.new }
{
    let mut table = [0; MOST_TABLE];
    let first = take_number(input, 0);
    let first_line = first.line;
    let vars = first_line.variables();
    let second = take_number(input, first.at);
    let second_line = second.line;
    let third = program_scan_lines::take_variables(input, second.at, vars, &mut table);
    let bytes = program_scan_lines::table_bytes(third.variables, vars);
    let from = third.at;
    let to = kept_end(input.len(), from, MOST_REST);
    report_rest(
        vars,
        program_scan_lines::watchdog(second_line),
        &table[..bytes],
        &input[from..to],
        out,
    )
}
