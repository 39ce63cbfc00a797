// The counts of List scan, which answers Result<table::Halt<Counts>, questions::Refusal>. The definitions of lists stand in specs/; nothing here has
// a body.
#![tactic(auto)]

// The instructions carried out, the rungs entered, and how many times a variable was turned over.
#[derive(Clone, Copy, PartialEq, Eq)]
pub struct Counts {
    pub instructions: u32,
    pub rungs: u32,
    pub moved: u32,
}
