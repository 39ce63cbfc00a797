// The calls of the ladder side: questions 1 and 4 to 9, and Ladder scan. Document 01, "The kept ladder", "What a ladder does"; document 02,
// Req 06.
#![tactic(auto)]

ghost use Rattle.std.specs.Prelude.{◌≡◌};
ghost use Rattle.questions.specs.Questions.{first_no};
ghost use Rattle.questions.specs.Refusals.{verdict_answer};
ghost use Rattle.table.specs.TimerRecords.{column_timers, number_timers};
ghost use Rattle.timers.specs.Parts.{columns_in, SameSlices};
ghost use Rattle.ladder_definitions.specs.Kept.{kept_in};
ghost use Rattle.ladder_definitions.specs.Questions.{form_questions, ladder_answer};
ghost use Rattle.ladder_definitions.specs.LadderScan.{scan_questions, call_ladder_scan, LadderScanNumbers, LadderScanColumns};

pub use ladder_definitions::Counts;
use questions::{MOST_RUNG_WATCHDOG, Refusal};
use rungs::Slices;
use table::Halt;
use timers::Columns;

// Questions 4 to 8, in order.
fn form_answer(vars: u32, ladder: Slices, times: &[u32]) -> Result<(), Refusal>
    ensures { verdict_answer result ≡ first_no (form_questions vars
        (kept_in ladder.entry times.now)) }
{
    if !ladder_kept::holds_ladder(ladder, times) {
        return Err(Refusal::Kept);
    }
    if !ladder_names::sizes_in_range(ladder.words, ladder.lengths) {
        return Err(Refusal::Sizes);
    }
    if let Some(rung) = ladder_names::unknown_variable(vars, ladder.words, ladder.lengths) {
        return Err(Refusal::Variable { rung });
    }
    if let Some(rung) = ladder_names::repeated_label(ladder.labels) {
        return Err(Refusal::Label { rung });
    }
    if let Some(rung) = ladder_names::missing_label(ladder.labels, ladder.words, ladder.lengths) {
        return Err(Refusal::Jump { rung });
    }
    Ok(())
}

// Questions 1 and 4 to 9, in order.
pub fn ladder_answer(vars: u32, ladder: Slices, times: &[u32]) -> Result<(), Refusal>
    ensures { verdict_answer result ≡ ladder_answer vars
        (kept_in ladder.entry times.now) }
{
    if !questions::vars_in_range(vars) {
        return Err(Refusal::Variables);
    }
    form_answer(vars, ladder, times)?;
    if !ladder_scratch::scratch_in_range(ladder.words, ladder.offsets, ladder.lengths) {
        return Err(Refusal::Scratch);
    }
    Ok(())
}

// Ladder scan's questions: 1, 16, 4 to 8, 17, 9, 11 and 12, in order. Timer records are in one slice of numbers, five a record.
pub fn scan_questions(
    vars: u32,
    ladder: Slices,
    times: &[u32],
    table: &[u8],
    timers: &[u32],
    watchdog: u32,
) -> Result<(), Refusal>
    ensures { verdict_answer result ≡ scan_questions vars
        (kept_in ladder.entry times.now)
        table.now (number_timers timers.now) watchdog }
{
    if !questions::vars_in_range(vars) {
        return Err(Refusal::Variables);
    }
    if !timers::timers_in_range(vars, timers) {
        return Err(Refusal::Timers);
    }
    form_answer(vars, ladder, times)?;
    if !ladder_names::timers_known(ladder.words, timers.len() / timers::NUMBERS) {
        return Err(Refusal::TimerNumber);
    }
    if !ladder_scratch::scratch_in_range(ladder.words, ladder.offsets, ladder.lengths) {
        return Err(Refusal::Scratch);
    }
    if !table::table_in_range(vars, table) {
        return Err(Refusal::Table);
    }
    if !questions::watchdog_in_range(MOST_RUNG_WATCHDOG, watchdog) {
        return Err(Refusal::Watchdog);
    }
    Ok(())
}

// Ladder scan with the timer records in one slice of numbers, five a record.
pub fn ladder_scan_packed(
    vars: u32,
    ladder: Slices,
    times: &[u32],
    table: &mut [u8],
    timers: &mut [u32],
    tick: u32,
    watchdog: u32,
) -> Result<Halt<Counts>, Refusal>
    ensures { LadderScanNumbers (call_ladder_scan vars
        (kept_in ladder.entry times.now)
        table.old (number_timers timers.old) tick watchdog)
        result table.new timers.old timers.new }
{
    scan_questions(vars, ladder, times, table, timers, watchdog)?;
    Ok(ladder_scanning::run(vars, ladder, table, timers, tick, watchdog))
}

// Ladder scan. Timer records are in five slices; those of unequal lengths, or of more than 32 records, get 16.
pub fn ladder_scan(
    vars: u32,
    ladder: Slices,
    times: &[u32],
    table: &mut [u8],
    watchdog: u32,
    columns: &mut Columns,
    tick: u32,
) -> Result<Halt<Counts>, Refusal>
    ensures scanned { LadderScanColumns (call_ladder_scan vars
        (kept_in ladder.entry times.now)
        table.old (column_timers (columns_in columns.old)) tick watchdog)
        result table.new (columns_in columns.old) (columns_in columns.new) }
    ensures same { SameSlices columns.old columns.new }
{
    if !columns.can_pack() {
        let refusal = if questions::vars_in_range(vars) {
            Refusal::Timers
        } else {
            Refusal::Variables
        };
        return Err(refusal);
    }
    let mut numbers = [0u32; timers::MOST_NUMBERS];
    let n = columns.pack(&mut numbers);
    let scanned = ladder_scan_packed(
        vars,
        ladder,
        times,
        table,
        &mut numbers[..n],
        tick,
        watchdog,
    );
    columns.unpack(&numbers[..n]);
    scanned
}
