// List scan and Listing over one lent row of rung records. Document 01, "The kept ladder": "A list has the same records, counting
// instructions." Both go by a copy of the row's fields; List scan's times entered are stored back into the row (02, Req 04). Its timer
// records are in one slice of numbers, five a record (Req 06).
#![tactic(auto)]

ghost use Rattle.std.specs.Prelude.{◌≡◌};
ghost use Rattle.rows.specs.Rows.{records_of, times_of};
ghost use Rattle.table.specs.TimerRecords.{number_timers};
ghost use Rattle.list_definitions.specs.ListScan.{call_list_scan, ListScanNumbers};
ghost use Rattle.list_definitions.specs.Listing.{listing, ListingDone};
ghost use Rattle.list_rows.specs.Parts.{LongRefused, LongScanRefused};

use list_definitions::Counts;
use questions::Refusal;
use rows::Rung;
use rungs::MOST_RECORDS;
use table::Halt;

// What the first question of Listing after 14 says "no" to in a row of more than 256 records: 1, or 10.
fn long_refusal(vars: u32) -> Refusal
    ensures { LongRefused vars result }
{
    if questions::vars_in_range(vars) {
        Refusal::List
    } else {
        Refusal::Variables
    }
}

// ---- List scan

// What its first question says "no" to in such a row: 1, 16 or 10. Question 16 stands between those of Listing.
fn long_scan_refusal(vars: u32, timers: &[u32]) -> Refusal
    ensures { LongScanRefused vars timers.now result }
{
    if !questions::vars_in_range(vars) {
        Refusal::Variables
    } else if !timers::timers_in_range(vars, timers) {
        Refusal::Timers
    } else {
        long_refusal(vars)
    }
}

// List scan. Of the row it changes the times entered alone, and only where it isn't refused (02, Req 04: a scan "that isn't refused sets
// every field", "a refused one touches none").
pub fn list_scan(
    vars: u32,
    code: &[u32],
    row: &mut [Rung],
    table: &mut [u8],
    timers: &mut [u32],
    tick: u32,
    watchdog: u32,
) -> Result<Halt<Counts>, Refusal>
    ensures { ListScanNumbers (call_list_scan vars code.now (records_of row.old)
        table.old (number_timers timers.old) tick watchdog)
        result table.new timers.old timers.new (times_of row.old) (times_of row.new)
        × (records_of row.new ≡ records_of row.old) }
{
    let n = row.len();
    if MOST_RECORDS < n {
        return Err(long_scan_refusal(vars, timers));
    }
    let rows = rows::gather(row);
    // The row's own times are not taken out: 02, Req 04, "Any value is taken".
    let mut times = [0; MOST_RECORDS];
    let halt = list::list_scan_packed(
        vars,
        rows.slices(code),
        &mut times[..n],
        table,
        timers,
        tick,
        watchdog,
    )?;
    rows::put_times(row, &times[..n]);
    Ok(halt)
}

// ---- Listing

// Listing, with a name table (02, Req 05).
pub fn listing(
    vars: u32,
    code: &[u32],
    row: &[Rung],
    names: &[u8],
    out: &mut [u8],
) -> Result<usize, Refusal>
    ensures { ListingDone
        (listing names.now vars code.now (records_of row.now) out.old) result out.new }
{
    if MOST_RECORDS < row.len() {
        if !list_names::is_name_table(names) {
            return Err(Refusal::NameTable);
        }
        return Err(long_refusal(vars));
    }
    let rows = rows::gather(row);
    // 02, Req 04: "Any value is taken".
    let times = [0; MOST_RECORDS];
    list::listing(vars, rows.slices(code), &times[..row.len()], names, out)
}
