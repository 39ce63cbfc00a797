// What goes before and after both scans of one table: the questions, the copies, and the list scan's watchdog.
#![tactic(auto)]

ghost use Rattle.std.specs.Prelude.{◌≡◌, ◌≤◌};
ghost use Rattle.questions.specs.Questions.{most_rung_watchdog};
ghost use Rattle.questions.specs.Refusals.{verdict_answer};
ghost use Rattle.table.specs.Halt.{halt_of, halt_counts};
ghost use Rattle.ladder_definitions.specs.Kept.{kept_in};
ghost use Rattle.ladder_definitions.specs.Questions.{most_rung_words};
ghost use Rattle.translation_definitions.specs.Translate.{code_bound};
ghost use Rattle.both_parts.specs.Parts.{memory_in, copied_memory, SameMemory, lengths_of, both_asked, watchdog_by};

use ladder_definitions::Counts;
use questions::{MOST_INSTRUCTION_WATCHDOG, Refusal};
use rungs::Slices;
use table::Halt;

// What a scan is lent for its copy: a table, and timer records in one slice of numbers.
#[derive(Drop)]
pub struct Memory<'a> {
    pub table: &'a mut [u8],
    pub timers: &'a mut [u32],
}

impl Memory<'_> {
    // The table and the numbers of timer records, as far as the copy reaches.
    pub fn fill(&mut self, table: &[u8], timers: &[u32])
        ensures copied { memory_in self.new ≡ copied_memory table.now timers.now (memory_in self.old) }
        ensures same { SameMemory self.old self.new }
    {
        rungs::copy_into(table, self.table, 0);
        rungs::copy_into(timers, self.timers, 0);
    }
}

// Ladder scan's questions, 16 and 11 of each copy's length, 12 of the instruction watchdog.
pub fn both_answer(
    vars: u32,
    ladder: Slices,
    times: &[u32],
    table: &[u8],
    timers: &[u32],
    ladder_copy: &Memory,
    list_copy: &Memory,
    rung_watchdog: u32,
    instruction_watchdog: u32,
) -> Result<(), Refusal>
    ensures { verdict_answer result ≡ both_asked vars (kept_in ladder.entry times.now) table.now timers.now
        (lengths_of (memory_in ladder_copy.now) (memory_in list_copy.now)) rung_watchdog instruction_watchdog }
{
    ladder::scan_questions(vars, ladder, times, table, timers, rung_watchdog)?;
    if ladder_copy.timers.len() != timers.len() {
        return Err(Refusal::Timers);
    }
    if list_copy.timers.len() != timers.len() {
        return Err(Refusal::Timers);
    }
    if ladder_copy.table.len() != table.len() {
        return Err(Refusal::Table);
    }
    let whole = list_copy.table.len() == table.len();
    if !whole {
        return Err(Refusal::Table);
    }
    if !questions::watchdog_in_range(MOST_INSTRUCTION_WATCHDOG, instruction_watchdog) {
        return Err(Refusal::Watchdog);
    }
    Ok(())
}

// The list scan's watchdog: the one that is given, or demand 3's own, k × L where the ladder scan ended and 2 × n where it stopped.
pub fn list_watchdog(given: Option<u32>, ladder: Halt<Counts>, longest: usize, most: u32) -> u32
    requires { ((halt_counts ladder).rungs ≤ most_rung_watchdog) × (longest ≤ code_bound most_rung_words)
        × (most ≤ most_rung_watchdog) }
    ensures { result ≡ watchdog_by given (halt_of ladder) (halt_counts ladder).rungs longest most }
{
    match (given, ladder) {
        (Some(watchdog), _) => watchdog,
        (None, Halt::Ended(counts)) => counts.rungs * longest as u32,
        (None, Halt::Stopped(_)) => most * 2,
    }
}
