// The counts of Translate, which answers Result<Counts, questions::Refusal>, and the ends of both scans of one table, which answer
// Result<BothEnds, questions::Refusal>. The definitions of translation and demand 3 stand in specs/; nothing here has a body.
#![tactic(auto)]

use table::Halt;

// The instructions and rungs of a list, and L, the length of its longest rung.
#[derive(Clone, Copy, PartialEq, Eq)]
pub struct Counts {
    pub instructions: usize,
    pub rungs: usize,
    pub longest: usize,
}

// Translate's counts, and how each scan halted, with its counts.
#[derive(Clone, Copy, PartialEq, Eq)]
pub struct BothEnds {
    pub counts: Counts,
    pub ladder: Halt<ladder_definitions::Counts>,
    pub list: Halt<list_definitions::Counts>,
}
