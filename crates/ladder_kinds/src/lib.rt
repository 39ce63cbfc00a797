// The kinds of kept words by name, the sort of a kind, and the limits of a kept ladder. Document 01, "The kept ladder";
// document 02, Req 01 and Req 06.
#![tactic(auto)]

ghost use Rattle.std.specs.Prelude.{◌≡◌, ◌<◌, MatchOption};
ghost use Rattle.rungs.specs.Words.{operands, word};
ghost use Rattle.ladder_definitions.specs.Kept.{kind_sort, no_sort};
ghost use Rattle.ladder_kinds.specs.Kinds.{kind_number, case_sort, sort_in, names_variable, names_label};

use rungs::OPERANDS;

// At most 128 words a rung, 8,192 words; the rungs are rungs::MOST_RECORDS at most.
pub const MOST_RUNG_WORDS: usize = 128;

pub const MOST_WORDS: usize = 8192;

// The kinds with their numbers.
#[derive(Clone, Copy, PartialEq, Eq)]
pub enum Kind {
    Contact = 1,
    NegatedContact = 2,
    FrontAnd = 3,
    FrontOr = 4,
    Coil = 5,
    NegatedCoil = 6,
    Jump = 7,
    NegatedJump = 8,
    RearAnd = 9,
    RearOr = 10,
    SetCoil = 11,
    ResetCoil = 12,
    Timer = 13,
}

// A contact; a front-and or a front-or; a coil, a jump or a timer; a rear-and; or a rear-or.
#[derive(Clone, Copy, PartialEq, Eq)]
pub enum KindSort {
    Contact,
    Joined,
    Output,
    RearAnd,
    RearOr,
}

impl Kind {
    // The kind with a number, if one has it. Always inlined, so that a match on the kind is one table of arms on the number: else each
    // match tests again, and Translate of a ladder with many jumps takes a third more instructions.
    #[inline(always)]
    #[tactic(auto, unfolding(crate::specs::Kinds::kind_number))]
    pub fn of(number: u32) -> Option<Kind>
        ensures { MatchOption result (kind_sort number ≡ no_sort) (λ kind. kind_number kind ≡ number) }
    {
        match number {
            1 => Some(Kind::Contact),
            2 => Some(Kind::NegatedContact),
            3 => Some(Kind::FrontAnd),
            4 => Some(Kind::FrontOr),
            5 => Some(Kind::Coil),
            6 => Some(Kind::NegatedCoil),
            7 => Some(Kind::Jump),
            8 => Some(Kind::NegatedJump),
            9 => Some(Kind::RearAnd),
            10 => Some(Kind::RearOr),
            11 => Some(Kind::SetCoil),
            12 => Some(Kind::ResetCoil),
            13 => Some(Kind::Timer),
            _ => None,
        }
    }

    #[tactic(auto, using(crate::proofs::Numbers::tag_lem))]
    pub fn number(self) -> u32
        ensures { result ≡ kind_number self }
    {
        self as u32
    }

    // The word of this kind with an operand.
    #[tactic(auto, using(crate::proofs::Numbers::tag_lem))]
    pub fn word(self, operand: u32) -> u32
        requires { operand < operands }
        ensures { result ≡ word (kind_number self) operand }
    {
        self as u32 * OPERANDS + operand
    }

    #[tactic(auto, unfolding(crate::specs::Kinds::kind_number, crate::specs::Kinds::case_sort, ladder_definitions::specs::Kept::kind_sort, ladder_definitions::specs::Kept::kind_sorts))]
    pub fn sort(self) -> KindSort
        ensures { case_sort result ≡ kind_sort (kind_number self) }
    {
        match self {
            Kind::Contact => KindSort::Contact,
            Kind::NegatedContact => KindSort::Contact,
            Kind::FrontAnd => KindSort::Joined,
            Kind::FrontOr => KindSort::Joined,
            Kind::Coil => KindSort::Output,
            Kind::NegatedCoil => KindSort::Output,
            Kind::Jump => KindSort::Output,
            Kind::NegatedJump => KindSort::Output,
            Kind::RearAnd => KindSort::RearAnd,
            Kind::RearOr => KindSort::RearOr,
            Kind::SetCoil => KindSort::Output,
            Kind::ResetCoil => KindSort::Output,
            Kind::Timer => KindSort::Output,
        }
    }
}

// The sort of the kind with a number, if one has it.
#[tactic(auto, unfolding(crate::specs::Kinds::sort_in))]
pub fn sort_of(kind: u32) -> Option<KindSort>
    ensures { sort_in result ≡ kind_sort kind }
{
    Some(Kind::of(kind)?.sort())
}

// Whether a kind's operand is a variable. No branch: the compiler makes a few wide steps of a loop over words.
pub fn names_variable(kind: u32) -> bool
    ensures { result ≡ names_variable kind }
{
    (kind == Kind::Contact as u32)
        | (kind == Kind::NegatedContact as u32)
        | (kind == Kind::Coil as u32)
        | (kind == Kind::NegatedCoil as u32)
        | (kind == Kind::SetCoil as u32)
        | (kind == Kind::ResetCoil as u32)
}

// Whether it is a label.
pub fn names_label(kind: u32) -> bool
    ensures { result ≡ names_label kind }
{
    (kind == Kind::Jump as u32) | (kind == Kind::NegatedJump as u32)
}
