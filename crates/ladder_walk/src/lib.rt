// A rung worked along the prefix order of its kept words: a tree is its root word, then its first part, then its second.
// Words that hold no tree are passed over from the first that has no place there.
#![tactic(auto)]

ghost use Rattle.std.specs.Prelude.{◌+◌, ◌-◌, ◌<◌, ◌^◌, length};
ghost use Rattle.table.specs.Parts.{state_in};
ghost use Rattle.ladder_walk.specs.Walking.{ContactWorked, PartsJoined, RootsPassed, FrontWorked, OutputRun, RearRun, RungRun, SameLent};

use ladder_kinds::{Kind, KindSort};
use rungs::OPERANDS;
use table::State;

// A front's value, and the position after its words.
#[derive(Clone, Copy)]
pub struct Worked {
    pub value: bool,
    pub next: usize,
}

// Past a rear, at the position after its words, or away by a jump to a label.
#[derive(Clone, Copy)]
pub enum Ran {
    Onward { next: usize },
    Jumped { label: u32 },
}

// The contact at a position, if one stands there.
fn contact_at(words: &[u32], at: usize, state: &State) -> Option<Worked>
    ensures { ContactWorked words.now at state.now.table.now result state.now.table.now }
{
    let word = rungs::at_or(words, at, 0);
    let value = state.value((word % OPERANDS) as usize);
    match Kind::of(word / OPERANDS)? {
        Kind::Contact => Some(Worked {
            value,
            next: at + 1,
        }),
        Kind::NegatedContact => Some(Worked {
            value: !value,
            next: at + 1,
        }),
        _ => None,
    }
}

// The value of a front-and or of a front-or, from its parts'.
fn joined(kind: u32, first: bool, second: bool) -> bool
    ensures { PartsJoined kind first second result }
{
    if kind == Kind::FrontAnd as u32 {
        return first & second;
    }
    first | second
}

// Past the roots that stand before the first contact of the front at a position.
fn first_contact(words: &[u32], from: usize) -> usize
    ensures { RootsPassed words.now from result }
{
    let mut at = from;
    // Up to a word of another sort, so no count by a `for`.
    while let Some(sort) = ladder_kinds::sort_of(rungs::at_or(words, at, 0) / OPERANDS) {
        match sort {
            KindSort::Joined => {
                at += 1;
            }
            _ => {
                return at;
            }
        }
    }
    at
}

// The front whose words begin at a position: its first contact, and then, root by root towards that position, the parts joined with it.
// The part before a root's second is worked when the root is reached, so only a second part that is no contact takes a call.
fn front_at(words: &[u32], from: usize, state: &State) -> Worked
    ensures { FrontWorked words.now from state.now.table.now result state.now.table.now }
{
    let mut at = first_contact(words, from);
    let mut first = contact_at(words, at, state).unwrap_or(Worked {
        value: false,
        next: at,
    });
    while from < at {
        at -= 1;
        let kind = rungs::at_or(words, at, 0) / OPERANDS;
        let second = match contact_at(words, first.next, state) {
            Some(contact) => contact,
            None => front_at(words, first.next, state),
        };
        first = Worked {
            value: joined(kind, first.value, second.value),
            next: second.next,
        };
    }
    first
}

// The output of a word, with a power: on to the position after the word, or away by a jump to a label.
fn run_output(word: u32, next: usize, power: bool, state: &mut State) -> Ran
    requires { state.old.moved + 1 < 2 ^ 32 }
    ensures ran { OutputRun word next power (state_in state.old) result (state_in state.new) }
    ensures same { SameLent state.old state.new }
{
    let operand = word % OPERANDS;
    let Some(kind) = Kind::of(word / OPERANDS) else {
        return Ran::Onward { next };
    };
    match kind {
        Kind::Coil => {
            state.write(operand as usize, power);
            Ran::Onward { next }
        }
        Kind::NegatedCoil => {
            state.write(operand as usize, !power);
            Ran::Onward { next }
        }
        Kind::Jump => {
            if power {
                Ran::Jumped { label: operand }
            } else {
                Ran::Onward { next }
            }
        }
        Kind::NegatedJump => {
            if power {
                Ran::Onward { next }
            } else {
                Ran::Jumped { label: operand }
            }
        }
        Kind::SetCoil => {
            state.write_if(operand as usize, power, true);
            Ran::Onward { next }
        }
        Kind::ResetCoil => {
            state.write_if(operand as usize, power, false);
            Ran::Onward { next }
        }
        Kind::Timer => {
            timers::run_timer(state, operand as usize, power);
            Ran::Onward { next }
        }
        _ => Ran::Onward { next },
    }
}

// The rear whose words begin at a position, with a power: a rear-and's front, or a rear-or's first branch, and then what follows it, up to
// an output. Only a first branch that is no output takes a call of this function. Each output has a word of its own: the sum grows by the
// words left, at most.
fn rear_at(words: &[u32], from: usize, given: bool, state: &mut State) -> Ran
    requires { state.old.moved + (length words.now - from) < 2 ^ 32 }
    ensures ran { RearRun words.now from given (state_in state.old) result (state_in state.new) }
    ensures same { SameLent state.old state.new }
{
    let mut at = from;
    let mut power = given;
    // Each turn goes on where its front or branch ends, so no count by a `for`.
    loop {
        let word = rungs::at_or(words, at, 0);
        let Some(sort) = ladder_kinds::sort_of(word / OPERANDS) else {
            return Ran::Onward { next: at };
        };
        match sort {
            KindSort::Output => {
                return run_output(word, at + 1, power, state);
            }
            KindSort::RearAnd => {
                let front = front_at(words, at + 1, state);
                at = front.next;
                power = power & front.value;
            }
            KindSort::RearOr => {
                let first = at + 1;
                let branch = rungs::at_or(words, first, 0);
                let ran = match ladder_kinds::sort_of(branch / OPERANDS) {
                    Some(KindSort::Output) => run_output(branch, first + 1, power, state),
                    _ => rear_at(words, first, power, state),
                };
                match ran {
                    Ran::Onward { next } => {
                        at = next;
                    }
                    Ran::Jumped { .. } => {
                        return ran;
                    }
                }
            }
            _ => {
                return Ran::Onward { next: at };
            }
        }
    }
}

// The rung whose words begin at a position.
pub fn run_rung(words: &[u32], at: usize, state: &mut State) -> Ran
    requires { state.old.moved + (length words.now - at) < 2 ^ 32 }
    ensures ran { RungRun words.now at (state_in state.old) result (state_in state.new) }
    ensures same { SameLent state.old state.new }
{
    let front = front_at(words, at, state);
    // A rear that is an output takes no call of its own.
    let word = rungs::at_or(words, front.next, 0);
    if let Some(KindSort::Output) = ladder_kinds::sort_of(word / OPERANDS) {
        return run_output(word, front.next + 1, front.value, state);
    }
    rear_at(words, front.next, front.value, state)
}
