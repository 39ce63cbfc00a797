// The report of ladder-scan: both scans of a ladder and its list side by side. README, "ladder-scan".
#![tactic(auto)]

ghost use Rattle.std.specs.Prelude.{◌≡◌, ◌*◌, ◌≤◌, length, take};
ghost use Rattle.questions.specs.Questions.{most_variables};
ghost use Rattle.table.specs.Questions.{most_timers};
ghost use Rattle.ladder_definitions.specs.Questions.{most_rungs};
ghost use Rattle.printing.specs.Put.{Put};
ghost use Rattle.table.specs.Halt.{halt_of, halt_counts};
ghost use Rattle.ladder_definitions.specs.LadderScan.{counts_in as ladder_counts_in};
ghost use Rattle.list_definitions.specs.ListScan.{counts_in as list_counts_in};
ghost use Rattle.translation_definitions.specs.BothScans.{ends_in};
ghost use Rattle.noninterference.specs.Contacts.{word_contacts, left_out};
ghost use Rattle.program_definitions.specs.Scanout.{end_word, scan_count_lines, end_lines, entered_line, entered_lines};
ghost use Rattle.program_definitions.specs.Scanout.{changed_line, changed_lines, report_of};

use table::Halt;
use translation_definitions::BothEnds;

// A scan's counts, however it halted.
fn counts<C: Copy>(halt: Halt<C>) -> C
    ensures { result ≡ halt_counts halt }
{
    match halt {
        Halt::Ended(counts) | Halt::Stopped(counts) => counts,
    }
}

#[tactic(auto, unfolding(program_definitions::specs::Scanout::end_word, questions::specs::Bytes::bytes))]
fn put_end<C: Copy>(out: &mut [u8], at: usize, halt: Halt<C>) -> usize
    requires { at ≤ 1000 }
    ensures { Put out.old at (end_word (halt_of halt)) result out.new }
{
    match halt {
        Halt::Ended(_) => printing::put_text(out, at, b"Ended"),
        Halt::Stopped(_) => printing::put_text(out, at, b"Stopped"),
    }
}

// The rungs entered, the instructions carried out, and how many times a variable was turned over (02, Req 02).
#[tactic(auto, using(printing::proofs::Laws::Puts::decimal_most))]
fn put_counts(
    out: &mut [u8],
    at: usize,
    ladder: ladder_definitions::Counts,
    list: list_definitions::Counts,
) -> usize
    requires { at ≤ 500 }
    ensures put { Put out.old at (scan_count_lines (ladder_counts_in ladder) (list_counts_in list)) result out.new }
    ensures upper_bound { result ≤ 1000 }
{
    let rungs = printing::put_text(out, at, b"rungs ");
    let ladder_rungs = printing::put_number(out, rungs, ladder.rungs as usize);
    let apart = printing::put_text(out, ladder_rungs, b" ");
    let list_rungs = printing::put_number(out, apart, list.rungs as usize);
    let none = printing::put_text(out, list_rungs, b"\ninstructions - ");
    let instructions = printing::put_number(out, none, list.instructions as usize);
    let moved = printing::put_text(out, instructions, b"\nmoved ");
    let ladder_moved = printing::put_number(out, moved, ladder.moved as usize);
    let space = printing::put_text(out, ladder_moved, b" ");
    let list_moved = printing::put_number(out, space, list.moved as usize);
    printing::put_text(out, list_moved, b"\n")
}

// How each ended, and its counts.
#[tactic(auto, using(program_definitions::proofs::Laws::Bounds::word_short))]
fn put_ends(out: &mut [u8], ends: BothEnds) -> usize
    ensures put { Put out.old 0 (end_lines (ends_in ends)) result out.new }
    ensures upper_bound { result ≤ 1000 }
{
    let head = printing::put_text(out, 0, b"scan ladder list\nend ");
    let first = put_end(out, head, ends.ladder);
    let space = printing::put_text(out, first, b" ");
    let second = put_end(out, space, ends.list);
    let line = printing::put_text(out, second, b"\n");
    put_counts(out, line, counts(ends.ladder), counts(ends.list))
}

// The line of a rung: its label, and the times that the list scan entered it (02, Req 04).
#[tactic(auto, using(printing::proofs::Laws::Puts::decimal_most))]
fn put_entered(out: &mut [u8], at: usize, label: u16, times: u32) -> usize
    requires { at ≤ 10000 }
    ensures { Put out.old at (entered_line label times) result out.new }
{
    let name = printing::put_text(out, at, b"L");
    let number = printing::put_number(out, name, usize::from(label));
    let none = printing::put_text(out, number, b" - ");
    let entered = printing::put_number(out, none, times as usize);
    printing::put_text(out, entered, b"\n")
}

// The lines of the rungs that were entered.
fn put_rungs(out: &mut [u8], from: usize, labels: &[u16], times: &[u32]) -> usize
    requires { (from ≤ 1000) × (length labels.now ≤ most_rungs) }
    ensures { Put out.old from (entered_lines labels.now times.now) result out.new }
{
    let mut end = from;
    for (label, count) in labels.iter().zip(times) {
        let entered = *count != 0;
        if entered {
            end = put_entered(out, end, *label, *count);
        }
    }
    end
}

// The line of a variable: its value before and after, in both.
#[tactic(auto, using(printing::proofs::Laws::Puts::decimal_most))]
fn put_changed(
    out: &mut [u8],
    at: usize,
    variable: usize,
    before: u8,
    ladder: u8,
    list: u8,
) -> usize
    requires { at ≤ 100000 }
    ensures { Put out.old at (changed_line variable before ladder list) result out.new }
{
    let name = printing::put_text(out, at, b"v");
    let number = printing::put_number(out, name, variable);
    let space = printing::put_text(out, number, b" ");
    let first = printing::put_number(out, space, usize::from(before));
    let to_ladder = printing::put_text(out, first, b">");
    let after_ladder = printing::put_number(out, to_ladder, usize::from(ladder));
    let apart = printing::put_text(out, after_ladder, b" ");
    let again = printing::put_number(out, apart, usize::from(before));
    let to_list = printing::put_text(out, again, b">");
    let after_list = printing::put_number(out, to_list, usize::from(list));
    printing::put_text(out, after_list, b"\n")
}

// The lines of the first `vars` variables that changed.
fn put_variables(
    out: &mut [u8],
    from: usize,
    vars: u32,
    before: &[u8],
    ladder: &[u8],
    list: &[u8],
) -> usize
    requires { (from ≤ 10000) × (vars ≤ most_variables) }
    ensures { Put out.old from
        (changed_lines 0 (take vars before.now) (take vars ladder.now) (take vars list.now)) result
        out.new }
{
    let count = before.len().min(ladder.len()).min(list.len());
    let mut end = from;
    // A range: three slices zipped, enumerated and cut at `vars` are no plainer than one index into each.
    for i in 0..count.min(vars as usize) {
        let changed = (ladder[i] != before[i]) | (list[i] != before[i]);
        if changed {
            end = put_changed(out, end, i, before[i], ladder[i], list[i]);
        }
    }
    end
}

// The whole report: how the scans ended, the rungs that were entered, the variables and the timers that changed, the variables that no
// contact reads, and the verdict. `before` is the table before both scans, and `timers` the timer records; labels and times are those of
// the list's rungs, and `words` the ladder's.
pub fn put_report(
    out: &mut [u8],
    vars: u32,
    ends: BothEnds,
    before: &[u8],
    timers: &[u32],
    ladder_left: &[u8],
    list_left: &[u8],
    ladder_timers: &[u32],
    list_timers: &[u32],
    labels: &[u16],
    times: &[u32],
    words: &[u32],
) -> usize
    requires { (vars ≤ most_variables) × ((length labels.now ≤ most_rungs) × (length timers.now ≤ 5 * most_timers)) }
    ensures { Put out.old 0
        (report_of vars (left_out (word_contacts words.now) 0 vars) before.now timers.now (ends_in ends)
        labels.now times.now
        ladder_left.now list_left.now ladder_timers.now list_timers.now) result
        out.new }
{
    let head = put_ends(out, ends);
    let rungs = put_rungs(out, head, labels, times);
    let changed = put_variables(out, rungs, vars, before, ladder_left, list_left);
    let timed = program_scan_timers::put_timers(out, changed, timers, ladder_timers, list_timers);
    let verdict = program_scan_verdict::verdict_of(
        vars,
        ends,
        ladder_left,
        list_left,
        ladder_timers,
        list_timers,
    );
    let unread = program_scan_unread::put_unread(out, timed, vars, words);
    program_scan_verdict::put_verdict(out, unread, verdict)
}
