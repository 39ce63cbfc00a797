// Question 4. A rung's words are told by two counts: before each word some fronts and then some rears are pending, and each word says
// what is pending after it.
#![tactic(auto)]

ghost use Rattle.std.specs.Prelude.{◌≡◌, ◌+◌, ◌<◌, ◌/◌, ◌%◌, ◌^◌};
ghost use Rattle.ladder_definitions.specs.Kept.{kept_in};
ghost use Rattle.rungs.specs.Words.{operands};
ghost use Rattle.ladder_definitions.specs.Questions.{holds_ladder};
ghost use Rattle.ladder_kept.specs.Pending.{completes, WordTaken};

use ladder_kinds::KindSort;
use rungs::{OPERANDS, Slices};

// How many fronts and then how many rears are pending before a word.
#[derive(Clone, Copy)]
pub struct Pending {
    pub fronts: usize,
    pub rears: usize,
}

// What is pending after a word where a front is pending; None where no such word may stand.
fn front_word(kind: u32, operand: u32, fronts: usize, rears: usize) -> Option<Pending>
    requires { (0 < fronts) × (fronts + 1 < 2 ^ 64) }
    ensures { WordTaken kind operand fronts rears result }
{
    match ladder_kinds::sort_of(kind)? {
        KindSort::Contact => Some(Pending {
            fronts: fronts - 1,
            rears,
        }),
        KindSort::Joined => (operand == 0).then_some(Pending {
            fronts: fronts + 1,
            rears,
        }),
        _ => None,
    }
}

// And where no front is pending, and a rear is.
fn rear_word(kind: u32, operand: u32, rears: usize) -> Option<Pending>
    requires { (0 < rears) × (rears + 1 < 2 ^ 64) }
    ensures { WordTaken kind operand 0 rears result }
{
    match ladder_kinds::sort_of(kind)? {
        KindSort::Output => Some(Pending {
            fronts: 0,
            rears: rears - 1,
        }),
        KindSort::RearAnd => (operand == 0).then_some(Pending { fronts: 1, rears }),
        KindSort::RearOr => (operand == 0).then_some(Pending {
            fronts: 0,
            rears: rears + 1,
        }),
        _ => None,
    }
}

fn after_word(pending: Pending, word: u32) -> Option<Pending>
    requires { (pending.fronts + 1 < 2 ^ 64) × (pending.rears + 1 < 2 ^ 64) }
    ensures { WordTaken (word / operands) (word % operands) pending.fronts pending.rears result }
{
    let Pending { fronts, rears } = pending;
    if 0 < fronts {
        front_word(word / OPERANDS, word % OPERANDS, fronts, rears)
    } else if 0 < rears {
        rear_word(word / OPERANDS, word % OPERANDS, rears)
    } else {
        None
    }
}

// Whether words are a front and then a rear.
pub fn holds_rung(words: &[u32]) -> bool
    ensures { result ≡ completes 1 1 words.now }
{
    let mut pending = Pending {
        fronts: 1,
        rears: 1,
    };
    for word in words {
        let Some(after) = after_word(pending, *word) else {
            return false;
        };
        pending = after;
    }
    pending.fronts == 0 && pending.rears == 0
}

// Question 4. No sum wraps: a record's length is compared with what is left of the words. Of the times entered any value is taken.
pub fn holds_ladder(ladder: Slices, times: &[u32]) -> bool
    ensures { result ≡ holds_ladder (kept_in ladder.entry times.now) }
{
    let Slices {
        words,
        labels,
        offsets,
        lengths,
    } = ladder;
    let records = labels.len();
    let timed = records == times.len();
    if !timed || records != offsets.len() || records != lengths.len() || records == 0 {
        return false;
    }
    let mut rest = words;
    for (offset, length) in offsets.iter().zip(lengths) {
        let Some((rung, later)) = rest.split_at_checked(*length as usize) else {
            return false;
        };
        if *offset as usize != words.len() - rest.len() || !holds_rung(rung) {
            return false;
        }
        rest = later;
    }
    rest.is_empty()
}
