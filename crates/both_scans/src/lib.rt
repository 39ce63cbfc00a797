// Both scans of one table: what a fault book can cite. Document 01, demand 3. Every question is put before the first store.
#![tactic(auto)]

ghost use Rattle.std.specs.Prelude.{◌≡◌, ◌≤◌};
ghost use Rattle.questions.specs.Questions.{most_rung_watchdog};
ghost use Rattle.rungs.specs.Buffers.{buffers, row_in};
ghost use Rattle.ladder_definitions.specs.Kept.{kept_in};
ghost use Rattle.ladder_definitions.specs.Questions.{most_rung_words};
ghost use Rattle.translation_definitions.specs.Translate.{code_bound};
ghost use Rattle.translation_definitions.specs.TranslateKept.{translate_kept, TranslateDone};
ghost use Rattle.translation_definitions.specs.BothScans.{both_scans, paired_scans, both_scanned_answer, BothScansDone};
ghost use Rattle.translation_definitions.specs.BothAgree.{BothPromise, PairedPromise};
ghost use Rattle.both_parts.specs.Parts.{memory_in, copied_memory, SameMemory};
ghost use Rattle.both_scans.specs.Parts.{lent_to, chosen_watchdog, ScansRun};

pub use both_parts::Memory;
use questions::Refusal;
use rungs::{Buffers, Slices};
use table::Halt;
use translation::translate;
use translation_definitions::{BothEnds, Counts};

// Both scans, each on a copy of the table and of the timer records, once the list is written. A refusal would count as a scan that stopped at
// once; no question is left that could refuse.
fn scan_written(
    vars: u32,
    ladder: Slices,
    times: &[u32],
    table: &[u8],
    timers: &[u32],
    tick: u32,
    ladder_copy: &mut Memory,
    list_copy: &mut Memory,
    list: Slices,
    list_times: &mut [u32],
    counts: Counts,
    rung_watchdog: u32,
    watchdog: Option<u32>,
) -> BothEnds
    requires { (counts.longest ≤ code_bound most_rung_words) × (rung_watchdog ≤ most_rung_watchdog) }
    ensures run { ScansRun vars (kept_in ladder.entry times.now)
        list.entry.words.now (row_in list.entry list_times.old)
        counts tick rung_watchdog watchdog
        (copied_memory table.now timers.now (memory_in ladder_copy.old))
        (copied_memory table.now timers.now (memory_in list_copy.old)) result
        (memory_in ladder_copy.new) (memory_in list_copy.new)
        list_times.old list_times.new }
    ensures same_ladder { SameMemory ladder_copy.old ladder_copy.new }
    ensures same_list { SameMemory list_copy.old list_copy.new }
{
    ladder_copy.fill(table, timers);
    list_copy.fill(table, timers);
    let ladder_halt = ladder::ladder_scan_packed(
        vars,
        ladder,
        times,
        ladder_copy.table,
        ladder_copy.timers,
        tick,
        rung_watchdog,
    )
    .unwrap_or(Halt::Stopped(ladder_definitions::Counts { rungs: 0, moved: 0 }));
    let list_halt = list::list_scan_packed(
        vars,
        list,
        list_times,
        list_copy.table,
        list_copy.timers,
        tick,
        both_parts::list_watchdog(watchdog, ladder_halt, counts.longest, rung_watchdog),
    )
    .unwrap_or(Halt::Stopped(list_definitions::Counts {
        instructions: 0,
        rungs: 0,
        moved: 0,
    }));
    BothEnds {
        counts,
        ladder: ladder_halt,
        list: list_halt,
    }
}

// Translate, into five slices.
fn write_list(
    vars: u32,
    ladder: Slices,
    times: &[u32],
    code: &mut [u32],
    code_labels: &mut [u16],
    code_offsets: &mut [u32],
    code_lengths: &mut [u32],
    code_times: &mut [u32],
) -> Result<Counts, Refusal>
    ensures { TranslateDone (translate_kept vars (kept_in ladder.entry times.now)
        (buffers code.old code_labels.old code_offsets.old code_lengths.old code_times.old)) result
        (buffers code.new code_labels.new code_offsets.new code_lengths.new code_times.new) }
{
    let mut list = Buffers {
        words: code,
        labels: code_labels,
        offsets: code_offsets,
        lengths: code_lengths,
        times: code_times,
    };
    translate(vars, ladder, times, &mut list)
}

// Both scans: the questions, Translate, the scans. The list's watchdog is given, or else demand 3's own. The list's buffers stay five parameters:
// parts of two fields behind one `&mut Buffers` cannot be lent to one call, whose proof the check doesn't make.
fn scan_both(
    vars: u32,
    ladder: Slices,
    times: &[u32],
    table: &[u8],
    timers: &[u32],
    tick: u32,
    ladder_copy: &mut Memory,
    list_copy: &mut Memory,
    code: &mut [u32],
    code_labels: &mut [u16],
    code_offsets: &mut [u32],
    code_lengths: &mut [u32],
    code_times: &mut [u32],
    rung_watchdog: u32,
    watchdog: Option<u32>,
) -> Result<BothEnds, Refusal>
    ensures both_scans_done { BothScansDone (both_scans vars (kept_in ladder.entry times.now) table.now timers.now tick
        (lent_to ladder_copy.old list_copy.old (buffers code.old code_labels.old code_offsets.old code_lengths.old code_times.old))
        rung_watchdog (chosen_watchdog watchdog vars (kept_in ladder.entry times.now) table.now timers.now tick rung_watchdog)) result
        (lent_to ladder_copy.new list_copy.new (buffers code.new code_labels.new code_offsets.new code_lengths.new code_times.new)) }
    ensures same_ladder { SameMemory ladder_copy.old ladder_copy.new }
    ensures same_list { SameMemory list_copy.old list_copy.new }
{
    both_parts::both_answer(
        vars,
        ladder,
        times,
        table,
        timers,
        ladder_copy,
        list_copy,
        rung_watchdog,
        watchdog.unwrap_or(0),
    )?;
    let counts = write_list(
        vars,
        ladder,
        times,
        code,
        code_labels,
        code_offsets,
        code_lengths,
        code_times,
    )?;
    let n = counts.instructions;
    let m = counts.rungs;
    Ok(scan_written(
        vars,
        ladder,
        times,
        table,
        timers,
        tick,
        ladder_copy,
        list_copy,
        Slices {
            words: &code[..n],
            labels: &code_labels[..m],
            offsets: &code_offsets[..m],
            lengths: &code_lengths[..m],
        },
        &mut code_times[..m],
        counts,
        rung_watchdog,
        watchdog,
    ))
}

// Translates a ladder and scans the ladder and its list, each on a copy of the table and of the timer records, under any two watchdogs. The
// timer records, and each copy of them, are one slice with five numbers for each.
pub fn both_scans(
    vars: u32,
    ladder: Slices,
    times: &[u32],
    table: &[u8],
    timers: &[u32],
    tick: u32,
    ladder_copy: &mut Memory,
    list_copy: &mut Memory,
    code: &mut [u32],
    code_labels: &mut [u16],
    code_offsets: &mut [u32],
    code_lengths: &mut [u32],
    code_times: &mut [u32],
    rung_watchdog: u32,
    instruction_watchdog: u32,
) -> Result<BothEnds, Refusal>
    ensures both_scans_done { BothScansDone (both_scans vars (kept_in ladder.entry times.now) table.now timers.now tick
        (lent_to ladder_copy.old list_copy.old (buffers code.old code_labels.old code_offsets.old code_lengths.old code_times.old)) rung_watchdog instruction_watchdog) result
        (lent_to ladder_copy.new list_copy.new (buffers code.new code_labels.new code_offsets.new code_lengths.new code_times.new)) }
    ensures both_promise { BothPromise vars (kept_in ladder.entry times.now) table.now timers.now tick
        (lent_to ladder_copy.old list_copy.old (buffers code.old code_labels.old code_offsets.old code_lengths.old code_times.old)) rung_watchdog instruction_watchdog (both_scanned_answer result)
        (lent_to ladder_copy.new list_copy.new (buffers code.new code_labels.new code_offsets.new code_lengths.new code_times.new)) }
    ensures same_ladder { SameMemory ladder_copy.old ladder_copy.new }
    ensures same_list { SameMemory list_copy.old list_copy.new }
{
    scan_both(
        vars,
        ladder,
        times,
        table,
        timers,
        tick,
        ladder_copy,
        list_copy,
        code,
        code_labels,
        code_offsets,
        code_lengths,
        code_times,
        rung_watchdog,
        Some(instruction_watchdog),
    )
}

// The same under the rung watchdog n, with the instruction watchdog of demand 3: k × L where the ladder scan ended, 2 × n where it
// stopped.
pub fn paired_scans(
    vars: u32,
    ladder: Slices,
    times: &[u32],
    table: &[u8],
    timers: &[u32],
    tick: u32,
    ladder_copy: &mut Memory,
    list_copy: &mut Memory,
    code: &mut [u32],
    code_labels: &mut [u16],
    code_offsets: &mut [u32],
    code_lengths: &mut [u32],
    code_times: &mut [u32],
    rung_watchdog: u32,
) -> Result<BothEnds, Refusal>
    ensures both_scans_done { BothScansDone (paired_scans vars (kept_in ladder.entry times.now) table.now timers.now tick
        (lent_to ladder_copy.old list_copy.old (buffers code.old code_labels.old code_offsets.old code_lengths.old code_times.old)) rung_watchdog) result
        (lent_to ladder_copy.new list_copy.new (buffers code.new code_labels.new code_offsets.new code_lengths.new code_times.new)) }
    ensures paired_promise { PairedPromise vars (kept_in ladder.entry times.now) table.now timers.now tick
        (lent_to ladder_copy.old list_copy.old (buffers code.old code_labels.old code_offsets.old code_lengths.old code_times.old)) rung_watchdog (both_scanned_answer result)
        (lent_to ladder_copy.new list_copy.new (buffers code.new code_labels.new code_offsets.new code_lengths.new code_times.new)) }
    ensures same_ladder { SameMemory ladder_copy.old ladder_copy.new }
    ensures same_list { SameMemory list_copy.old list_copy.new }
{
    scan_both(
        vars,
        ladder,
        times,
        table,
        timers,
        tick,
        ladder_copy,
        list_copy,
        code,
        code_labels,
        code_offsets,
        code_lengths,
        code_times,
        rung_watchdog,
        None,
    )
}
