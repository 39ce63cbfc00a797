// Refusals, and questions 1 and 12. Document 01, "Questions before work".
#![tactic(auto)]

ghost use Rattle.std.specs.Prelude.{◌≡◌, leb};
ghost use Rattle.questions.specs.Questions.{vars_in_range};
ghost use Rattle.questions.specs.Refusals.{refusal_of};

// V from 1 to 1,024.
pub const MOST_VARIABLES: u32 = 1024;

// A rung watchdog is 0 to 65,535, an instruction watchdog 0 to 16,777,215.
pub const MOST_RUNG_WATCHDOG: u32 = 65535;

pub const MOST_INSTRUCTION_WATCHDOG: u32 = 16777215;

// The first "no" to some questions in order, which answer Result<(), Refusal>. One case for each question: specs/Refusals.antt gives
// its number and place.
#[derive(Clone, Copy, PartialEq, Eq)]
pub enum Refusal {
    Variables,
    TextLength,
    Text { place: usize },
    Kept,
    Sizes,
    Variable { rung: usize },
    Label { rung: usize },
    Jump { rung: usize },
    Scratch,
    List,
    Table,
    Watchdog,
    Buffer,
    NameTable,
    ListText,
    Timers,
    TimerNumber,
}

impl Refusal {
    // Its number in the table of questions.
    #[tactic(auto, unfolding(crate::specs::Refusals::refusal_of))]
    pub fn number(self) -> usize
        ensures { result ≡ (refusal_of self).number }
    {
        match self {
            Refusal::Variables => 1,
            Refusal::TextLength => 2,
            Refusal::Text { .. } => 3,
            Refusal::Kept => 4,
            Refusal::Sizes => 5,
            Refusal::Variable { .. } => 6,
            Refusal::Label { .. } => 7,
            Refusal::Jump { .. } => 8,
            Refusal::Scratch => 9,
            Refusal::List => 10,
            Refusal::Table => 11,
            Refusal::Watchdog => 12,
            Refusal::Buffer => 13,
            Refusal::NameTable => 14,
            Refusal::ListText => 15,
            Refusal::Timers => 16,
            Refusal::TimerNumber => 17,
        }
    }

    // Its place, 0 where it has none.
    #[tactic(auto, unfolding(crate::specs::Refusals::refusal_of))]
    pub fn place(self) -> usize
        ensures { result ≡ (refusal_of self).place }
    {
        match self {
            Refusal::Text { place } => place,
            Refusal::Variable { rung } | Refusal::Label { rung } | Refusal::Jump { rung } => rung,
            _ => 0,
        }
    }
}

#[tactic(auto, unfolding(crate::specs::Questions::vars_in_range))]
pub fn vars_in_range(vars: u32) -> bool
    ensures { result ≡ vars_in_range vars }
{
    (1..=MOST_VARIABLES).contains(&vars)
}

pub fn watchdog_in_range(most: u32, watchdog: u32) -> bool
    ensures { result ≡ leb watchdog most }
{
    watchdog <= most
}
