// The timers' lines of ladder-scan's report. README, "ladder-scan"; document 02, Req 06.
#![tactic(auto)]

ghost use Rattle.std.specs.Prelude.{◌≡◌, ◌++◌, ◌+◌, ◌*◌, ◌≤◌, length};
ghost use Rattle.questions.specs.Bytes.{bytes};
ghost use Rattle.table.specs.Questions.{most_timers};
ghost use Rattle.table.specs.TimerRecords.{timers_in};
ghost use Rattle.timers.specs.Parts.{timer_at};
ghost use Rattle.printing.specs.Put.{Put};
ghost use Rattle.program_definitions.specs.Scanout.{timer_text, timer_line, timer_lines};

use timers::{DONE, NUMBERS, RUNNING, START};

// A timer's start tick and its flags running and done.
#[tactic(auto, using(printing::proofs::Laws::Puts::decimal_most))]
fn put_state(out: &mut [u8], at: usize, timer: &[u32]) -> usize
    requires { (at ≤ 200000) × (length timer.now ≡ 5) }
    ensures put { Put out.old at (timer_text (timer_at timer.now 0)) result out.new }
    ensures upper_bound { result ≤ at + 62 }
{
    let start = printing::put_number(out, at, timer[START] as usize);
    let first = printing::put_text(out, start, b",");
    let running = printing::put_number(out, first, timer[RUNNING] as usize);
    let second = printing::put_text(out, running, b",");
    printing::put_number(out, second, timer[DONE] as usize)
}

// A timer before and after a scan.
fn put_change(out: &mut [u8], at: usize, before: &[u32], after: &[u32]) -> usize
    requires { (at ≤ 180000) × ((length before.now ≡ 5) × (length after.now ≡ 5)) }
    ensures put { Put out.old at
        (timer_text (timer_at before.now 0) ++ (bytes ">" ++ timer_text (timer_at after.now 0))) result
        out.new }
    ensures upper_bound { result ≤ at + 125 }
{
    let first = put_state(out, at, before);
    let to = printing::put_text(out, first, b">");
    put_state(out, to, after)
}

// The line of a timer: before and after, in both.
#[tactic(auto, using(printing::proofs::Laws::Puts::decimal_most))]
fn put_timer(
    out: &mut [u8],
    at: usize,
    number: usize,
    before: &[u32],
    ladder: &[u32],
    list: &[u32],
) -> usize
    requires { (at ≤ 150000) × ((length before.now ≡ 5) × ((length ladder.now ≡ 5) × (length list.now ≡ 5))) }
    ensures put { Put out.old at
        (timer_line number (timer_at before.now 0) (timer_at ladder.now 0) (timer_at list.now 0)) result
        out.new }
    ensures upper_bound { result ≤ at + 300 }
{
    let name = printing::put_text(out, at, b"d");
    let end = printing::put_number(out, name, number);
    let space = printing::put_text(out, end, b" ");
    let first = put_change(out, space, before, ladder);
    let apart = printing::put_text(out, first, b" ");
    let second = put_change(out, apart, before, list);
    printing::put_text(out, second, b"\n")
}

// The lines of the timers that changed.
pub fn put_timers(
    out: &mut [u8],
    from: usize,
    before: &[u32],
    ladder: &[u32],
    list: &[u32],
) -> usize
    requires { (from ≤ 100000) × (length before.now ≤ 5 * most_timers) }
    ensures { Put out.old from
        (timer_lines 0 (timers_in before.now) (timers_in ladder.now) (timers_in list.now)) result
        out.new
        × (result ≤ 150000) }
{
    let count = before.len().min(ladder.len()).min(list.len()) / NUMBERS;
    let mut end = from;
    // A range: the chunks of three slices, zipped and enumerated, are no plainer than one place in each.
    for number in 0..count {
        let place = number * NUMBERS;
        let next = place + NUMBERS;
        let timer = &before[place..next];
        let ladder_timer = &ladder[place..next];
        let list_timer = &list[place..next];
        if ladder_timer != timer || list_timer != timer {
            end = put_timer(out, end, number, timer, ladder_timer, list_timer);
        }
    }
    end
}
