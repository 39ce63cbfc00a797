// Ladder scan over one lent row of rung records. Document 01, "The kept ladder": "Rung records lie side by side in one lent row". The
// questions are put to a copy of the row's fields; the scan goes by the row itself, and searches it where a rung jumps.
#![tactic(auto)]

ghost use Rattle.std.specs.Prelude.{◌≡◌, Ok};
ghost use Rattle.questions.specs.Refusals.{verdict_answer};
ghost use Rattle.table.specs.State.{state_of};
ghost use Rattle.table.specs.TimerRecords.{timers_in, number_timers};
ghost use Rattle.table.specs.Parts.{state_in};
ghost use Rattle.rungs.specs.Records.{labels, offsets};
ghost use Rattle.rows.specs.Rows.{records_of};
ghost use Rattle.ladder_definitions.specs.LadderScan.{scan_questions, call_ladder_scan, LadderScanNumbers};
ghost use Rattle.ladder_walk.specs.Walking.{SameLent};
ghost use Rattle.ladder_scanning.specs.Scanned.{WithinLimits, Scanned};
ghost use Rattle.ladder_rows.specs.Parts.{long_holds, LongRefused, LongScanRefused};

use ladder_definitions::Counts;
use ladder_walk::Ran;
use questions::Refusal;
use rows::Rung;
use rungs::MOST_RECORDS;
use table::{Halt, State};

// ---- a row of more than 256 records

// Question 4 of a row of more than 256 records. Of fewer it says nothing. No sum wraps: a record's length is compared with what is left of
// the words.
pub fn long_holds(row: &[Rung], words: &[u32]) -> bool
    ensures { result ≡ long_holds words.now (records_of row.now) }
{
    if row.len() <= MOST_RECORDS {
        return false;
    }
    let mut rest = words;
    for rung in row {
        let Some((own, later)) = rest.split_at_checked(rung.length as usize) else {
            return false;
        };
        if rung.offset as usize != words.len() - rest.len() || !ladder_kept::holds_rung(own) {
            return false;
        }
        rest = later;
    }
    rest.is_empty()
}

// What the first question says "no" to in a row of more than 256 records: 1, or 4, or 5.
pub fn long_refusal(vars: u32, holds: bool) -> Refusal
    ensures { LongRefused vars holds result }
{
    if !questions::vars_in_range(vars) {
        Refusal::Variables
    } else if !holds {
        Refusal::Kept
    } else {
        Refusal::Sizes
    }
}

// The same of Ladder scan, which puts question 16 after question 1.
fn long_scan_refusal(vars: u32, timers: &[u32], holds: bool) -> Refusal
    ensures { LongScanRefused vars timers.now holds result }
{
    if !questions::vars_in_range(vars) {
        Refusal::Variables
    } else if !timers::timers_in_range(vars, timers) {
        Refusal::Timers
    } else {
        long_refusal(vars, holds)
    }
}

// ---- the questions, and the scan

// Ladder scan's questions, to a copy of the row's fields.
fn ask(
    vars: u32,
    words: &[u32],
    row: &[Rung],
    table: &[u8],
    timers: &[u32],
    watchdog: u32,
) -> Result<(), Refusal>
    ensures { verdict_answer result ≡ scan_questions vars
        (record { words = words.now; records = records_of row.now })
        table.now (number_timers timers.now) watchdog }
{
    if MOST_RECORDS < row.len() {
        let holds = long_holds(row, words);
        return Err(long_scan_refusal(vars, timers, holds));
    }
    let rows = rows::gather(row);
    // 02, Req 04: "Any value is taken".
    let times = [0; MOST_RECORDS];
    ladder::scan_questions(
        vars,
        rows.slices(words),
        &times[..row.len()],
        table,
        timers,
        watchdog,
    )
}

// The scan, by the row itself, of a state in which nothing is turned over yet. No count by hand: a jump goes to any place of the row, and the
// watchdog ends the loop.
fn scan(words: &[u32], row: &[Rung], state: &mut State, watchdog: u32) -> Halt<Counts>
    requires limits { WithinLimits words.now watchdog }
    requires none_turned { state.old.moved ≡ 0 }
    ensures scanned { Scanned words.now (labels (records_of row.now)) (offsets (records_of row.now))
        (state_in state.old) watchdog (Ok result) state.new.table.now (timers_in state.new.timers.now) }
    ensures same { SameLent state.old state.new }
{
    let mut entered = 0;
    let mut place = 0;
    // A jump says which rung comes next, so this is no `for` over the row.
    while let Some(rung) = row.get(place) {
        if entered == watchdog {
            return Halt::Stopped(Counts {
                rungs: entered,
                moved: state.moved,
            });
        }
        entered += 1;
        match ladder_walk::run_rung(words, rung.offset as usize, state) {
            Ran::Onward { .. } => {
                place += 1;
            }
            Ran::Jumped { label } => {
                let target = rungs::place_of(rows::look_up(row, label));
                place = target;
            }
        }
    }
    Halt::Ended(Counts {
        rungs: entered,
        moved: state.moved,
    })
}

// The scan of what is lent.
fn run(
    vars: u32,
    words: &[u32],
    row: &[Rung],
    table: &mut [u8],
    timers: &mut [u32],
    tick: u32,
    watchdog: u32,
) -> Halt<Counts>
    requires { WithinLimits words.now watchdog }
    ensures { Scanned words.now (labels (records_of row.now)) (offsets (records_of row.now))
        (state_of vars table.old (timers_in timers.old) tick) watchdog
        (Ok result) table.new (timers_in timers.new) }
{
    let mut state = State {
        vars,
        table,
        timers,
        tick,
        moved: 0,
    };
    scan(words, row, &mut state, watchdog)
}

// Ladder scan. Timer records are in one slice of numbers, five a record.
pub fn ladder_scan(
    vars: u32,
    words: &[u32],
    row: &[Rung],
    table: &mut [u8],
    timers: &mut [u32],
    tick: u32,
    watchdog: u32,
) -> Result<Halt<Counts>, Refusal>
    ensures { LadderScanNumbers (call_ladder_scan vars
        (record { words = words.now; records = records_of row.now })
        table.old (number_timers timers.old) tick watchdog)
        result table.new timers.old timers.new }
{
    ask(vars, words, row, table, timers, watchdog)?;
    Ok(run(vars, words, row, table, timers, tick, watchdog))
}
