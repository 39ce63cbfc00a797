// What both scans of a ladder and its list came to: demand 3 of them, said in a line. README, "ladder-scan".
#![tactic(auto)]

ghost use Rattle.std.specs.Prelude.{◌≡◌, ◌≤◌, ◌&&◌, eqb, take};
ghost use Rattle.questions.specs.Bytes.{same_bytes};
ghost use Rattle.printing.specs.Put.{Put};
ghost use Rattle.translation_definitions.specs.BothScans.{ends_in};
ghost use Rattle.program_definitions.specs.Scanout.{verdict, verdict_line};
ghost use Rattle.program_scan_verdict.specs.Parts.{verdict_in};

use table::Halt;
use translation_definitions::BothEnds;

// What the two scans came to.
#[derive(Clone, Copy, PartialEq, Eq)]
pub enum Verdict {
    Alike,
    BothStopped,
    NotAlike,
}

// The first bytes, so many of them as there are.
#[tactic(auto, using(std::proofs::lemmas::List::take_min))]
fn first(bytes: &[u8], count: u32) -> &[u8]
    ensures { result.now ≡ take count bytes.now }
{
    &bytes[..bytes.len().min(count as usize)]
}

// Whether two scans that ended left the same: rungs entered, sum, variables and timer records.
#[tactic(auto, using(questions::proofs::Laws::Bytes::same_is))]
fn same_left(
    vars: u32,
    ladder: ladder_definitions::Counts,
    list: list_definitions::Counts,
    ladder_left: &[u8],
    list_left: &[u8],
    ladder_timers: &[u32],
    list_timers: &[u32],
) -> bool
    ensures { result ≡ (eqb ladder.rungs list.rungs && (eqb ladder.moved list.moved
        && (same_bytes (take vars ladder_left.now) (take vars list_left.now)
        && same_bytes ladder_timers.now list_timers.now))) }
{
    ladder.rungs == list.rungs
        && ladder.moved == list.moved
        && first(ladder_left, vars) == first(list_left, vars)
        && ladder_timers == list_timers
}

// Demand 3 with 02, Req 02 and 06, of these two scans.
#[tactic(auto, unfolding(crate::specs::Parts::verdict_in, program_definitions::specs::Scanout::verdict, program_definitions::specs::Scanout::alike_if, translation_definitions::specs::BothScans::ends_in, ladder_definitions::specs::LadderScan::counts_in, list_definitions::specs::ListScan::counts_in))]
pub fn verdict_of(
    vars: u32,
    ends: BothEnds,
    ladder_left: &[u8],
    list_left: &[u8],
    ladder_timers: &[u32],
    list_timers: &[u32],
) -> Verdict
    ensures { verdict_in result ≡ verdict (ends_in ends) (take vars ladder_left.now)
        (take vars list_left.now) ladder_timers.now list_timers.now }
{
    match (ends.ladder, ends.list) {
        (Halt::Ended(ladder), Halt::Ended(list)) => {
            if same_left(
                vars,
                ladder,
                list,
                ladder_left,
                list_left,
                ladder_timers,
                list_timers,
            ) {
                Verdict::Alike
            } else {
                Verdict::NotAlike
            }
        }
        (Halt::Stopped(_), Halt::Stopped(_)) => Verdict::BothStopped,
        _ => Verdict::NotAlike,
    }
}

// The last line of the report.
#[tactic(auto, unfolding(crate::specs::Parts::verdict_in, program_definitions::specs::Scanout::verdict_line, questions::specs::Bytes::bytes))]
pub fn put_verdict(out: &mut [u8], at: usize, verdict: Verdict) -> usize
    requires { at ≤ 200000 }
    ensures { Put out.old at (verdict_line (verdict_in verdict)) result out.new }
{
    match verdict {
        Verdict::Alike => printing::put_text(out, at, b"alike\n"),
        Verdict::BothStopped => printing::put_text(out, at, b"both stopped\n"),
        Verdict::NotAlike => printing::put_text(out, at, b"not alike\n"),
    }
}
