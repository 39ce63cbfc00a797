// The counts of Ladder scan, which answers Result<table::Halt<Counts>, questions::Refusal>. The definitions of ladders stand in specs/; nothing here
// has a body.
#![tactic(auto)]

// The rungs entered, and how many times a variable was turned over.
#[derive(Clone, Copy, PartialEq, Eq)]
pub struct Counts {
    pub rungs: u32,
    pub moved: u32,
}
