// The calls of the list side: questions 1 and 10, List scan and Listing. Document 01, "What a list does", "Listing"; document 02, Req 05
// and 06.
#![tactic(auto)]

ghost use Rattle.std.specs.Prelude.{◌≡◌};
ghost use Rattle.rungs.specs.Buffers.{row_in};
ghost use Rattle.table.specs.TimerRecords.{column_timers, number_timers};
ghost use Rattle.timers.specs.Parts.{columns_in, SameSlices};
ghost use Rattle.questions.specs.Refusals.{verdict_answer};
ghost use Rattle.list_definitions.specs.Questions.{list_in_range, list_answer};
ghost use Rattle.list_definitions.specs.ListScan.{scan_questions, call_list_scan, ListScanNumbers, ListScanColumns};
ghost use Rattle.list_definitions.specs.Listing.{listing, ListingDone};

pub use list_definitions::Counts;
use questions::{MOST_INSTRUCTION_WATCHDOG, Refusal};
use rungs::Slices;
use table::Halt;
use timers::Columns;

// Question 10. Slices of unequal lengths are no row; of the times entered "any value is taken" (02, Req 04).
fn row_in_range(vars: u32, list: Slices, times: &[u32]) -> bool
    ensures { result ≡ list_in_range vars list.entry.words.now
        (row_in list.entry times.now) }
{
    list.labels.len() == times.len() && list_questions::list_in_range(vars, list)
}

// Questions 1 and 10, in order.
pub fn list_answer(vars: u32, list: Slices, times: &[u32]) -> Result<(), Refusal>
    ensures { verdict_answer result ≡ list_answer vars list.entry.words.now
        (row_in list.entry times.now) }
{
    if !questions::vars_in_range(vars) {
        return Err(Refusal::Variables);
    }
    if !row_in_range(vars, list, times) {
        return Err(Refusal::List);
    }
    Ok(())
}

// List scan's questions: 1, 16, 10, 17, 11 and 12, in order. Timer records are in one slice of numbers, five a record.
pub fn scan_questions(
    vars: u32,
    list: Slices,
    times: &[u32],
    table: &[u8],
    timers: &[u32],
    watchdog: u32,
) -> Result<(), Refusal>
    ensures { verdict_answer result ≡ scan_questions vars list.entry.words.now
        (row_in list.entry times.now)
        table.now (number_timers timers.now) watchdog }
{
    if !questions::vars_in_range(vars) {
        return Err(Refusal::Variables);
    }
    if !timers::timers_in_range(vars, timers) {
        return Err(Refusal::Timers);
    }
    if !row_in_range(vars, list, times) {
        return Err(Refusal::List);
    }
    if !list_questions::timers_known(list.words, timers.len() / timers::NUMBERS) {
        return Err(Refusal::TimerNumber);
    }
    if !table::table_in_range(vars, table) {
        return Err(Refusal::Table);
    }
    if !questions::watchdog_in_range(MOST_INSTRUCTION_WATCHDOG, watchdog) {
        return Err(Refusal::Watchdog);
    }
    Ok(())
}

// List scan, with timer records in one slice of numbers. It sets the times entered, and a refusal "touches none" (02, Req 04).
pub fn list_scan_packed(
    vars: u32,
    list: Slices,
    times: &mut [u32],
    table: &mut [u8],
    timers: &mut [u32],
    tick: u32,
    watchdog: u32,
) -> Result<Halt<Counts>, Refusal>
    ensures { ListScanNumbers (call_list_scan vars list.entry.words.now
        (row_in list.entry times.old)
        table.old (number_timers timers.old) tick watchdog)
        result table.new timers.old timers.new times.old times.new }
{
    scan_questions(vars, list, times, table, timers, watchdog)?;
    Ok(list_machine::run(
        vars,
        list.words,
        list.offsets,
        times,
        table,
        timers,
        tick,
        watchdog,
    ))
}

// List scan, with timer records in five slices of one length. Of them it changes start, running and done; a refusal leaves them. Slices
// of unequal lengths get 16, as more than 32 records do.
pub fn list_scan(
    vars: u32,
    list: Slices,
    times: &mut [u32],
    table: &mut [u8],
    watchdog: u32,
    columns: &mut Columns,
    tick: u32,
) -> Result<Halt<Counts>, Refusal>
    ensures scanned { ListScanColumns (call_list_scan vars list.entry.words.now
        (row_in list.entry times.old)
        table.old (column_timers (columns_in columns.old)) tick watchdog)
        result table.new (columns_in columns.old) (columns_in columns.new)
        times.old times.new }
    ensures same { SameSlices columns.old columns.new }
{
    if !columns.can_pack() {
        if !questions::vars_in_range(vars) {
            return Err(Refusal::Variables);
        }
        return Err(Refusal::Timers);
    }
    let mut numbers = [0u32; timers::MOST_NUMBERS];
    let n = columns.pack(&mut numbers);
    let answer = list_scan_packed(vars, list, times, table, &mut numbers[..n], tick, watchdog);
    columns.unpack(&numbers[..n]);
    answer
}

// Listing, with a name table (02, Req 05).
pub fn listing(
    vars: u32,
    list: Slices,
    times: &[u32],
    names: &[u8],
    out: &mut [u8],
) -> Result<usize, Refusal>
    ensures { ListingDone (listing names.now vars list.entry.words.now
        (row_in list.entry times.now)
        out.old) result out.new }
{
    if !list_names::is_name_table(names) {
        return Err(Refusal::NameTable);
    }
    list_answer(vars, list, times)?;
    let needed = list_printing::put_list(names, vars, list, &mut []);
    if out.len() < needed {
        return Err(Refusal::Buffer);
    }
    Ok(list_printing::put_list(names, vars, list, out))
}
