// The scratch that a rung's code takes, along the prefix order of its kept words: question 9.
#![tactic(auto)]

ghost use Rattle.std.specs.Prelude.{◌≡◌, get_or};
ghost use Rattle.rungs.specs.Words.{number_of};
ghost use Rattle.ladder_definitions.specs.Kept.{kind_sort};
ghost use Rattle.ladder_kinds.specs.Kinds.{sort_in};
ghost use Rattle.ladder_scratch.specs.Measuring.{JoinMeasured, FrontMeasured, RearMeasured, RungMeasured, FewAsked, ScratchAsked};

use ladder_kinds::KindSort;

// A scratch byte takes two words: the root of the part that needs it and a part beside it. So 65 words need at most 32.
const FEW_WORDS: u32 = 65;

// The scratch bytes that a part takes, and the position after its words.
#[derive(Clone, Copy)]
pub struct Taken {
    pub bytes: usize,
    pub next: usize,
}

// The sort of the word at a position, if its kind has one.
fn sort_at(words: &[u32], at: usize) -> Option<KindSort>
    ensures { sort_in result ≡ kind_sort (number_of (get_or words.now at 0)) }
{
    ladder_kinds::sort_of(rungs::at_or(words, at, 0) / rungs::OPERANDS)
}

// What the front whose words begin at a position takes where it is joined: none if it is a contact, and else `through`.
fn join_scratch(words: &[u32], at: usize, through: usize) -> usize
    ensures { JoinMeasured words.now at through result }
{
    let Some(sort) = sort_at(words, at) else {
        return through;
    };
    match sort {
        KindSort::Contact => 0,
        _ => through,
    }
}

// The front whose words begin at a position.
fn front_scratch(words: &[u32], at: usize) -> Taken
    ensures { FrontMeasured words.now at result }
{
    let none = Taken { bytes: 0, next: at };
    let Some(sort) = sort_at(words, at) else {
        return none;
    };
    match sort {
        KindSort::Contact => Taken {
            bytes: 0,
            next: at + 1,
        },
        KindSort::Joined => {
            let first = front_scratch(words, at + 1);
            let second = front_scratch(words, first.next);
            let joined = join_scratch(words, first.next, second.bytes + 1);
            Taken {
                bytes: rungs::larger(first.bytes, joined),
                next: second.next,
            }
        }
        _ => none,
    }
}

// The rear whose words begin at a position.
fn rear_scratch(words: &[u32], at: usize) -> Taken
    ensures { RearMeasured words.now at result }
{
    let none = Taken { bytes: 0, next: at };
    let Some(sort) = sort_at(words, at) else {
        return none;
    };
    match sort {
        KindSort::Output => Taken {
            bytes: 0,
            next: at + 1,
        },
        KindSort::RearAnd => {
            let front = front_scratch(words, at + 1);
            let joined = join_scratch(words, at + 1, front.bytes + 1);
            let rear = rear_scratch(words, front.next);
            Taken {
                bytes: rungs::larger(joined, rear.bytes),
                next: rear.next,
            }
        }
        KindSort::RearOr => {
            let first = rear_scratch(words, at + 1);
            let second = rear_scratch(words, first.next);
            Taken {
                bytes: rungs::larger(first.bytes + 1, second.bytes),
                next: second.next,
            }
        }
        _ => none,
    }
}

// The rung whose words begin at a position.
fn rung_scratch(words: &[u32], at: usize) -> usize
    ensures { RungMeasured words.now at result }
{
    let front = front_scratch(words, at);
    let rear = rear_scratch(words, front.next);
    rungs::larger(front.bytes, rear.bytes)
}

// Whether the rung whose words begin at a position, as many as its length says, takes at most 32 scratch bytes. A rung of few words does.
fn few_scratch(words: &[u32], at: usize, length: u32) -> bool
    ensures { FewAsked words.now at length result }
{
    length <= FEW_WORDS || rung_scratch(words, at) <= table::SCRATCH_BYTES
}

// Question 9.
pub fn scratch_in_range(words: &[u32], offsets: &[u32], lengths: &[u32]) -> bool
    ensures { ScratchAsked words.now offsets.now lengths.now result }
{
    for (offset, length) in offsets.iter().zip(lengths) {
        if !few_scratch(words, *offset as usize, *length) {
            return false;
        }
    }
    true
}
