// The counts of Read, which answers Result<Counts, questions::Refusal>. Its definition stands in specs/; nothing here has a body.
#![tactic(auto)]

// The words and rungs of a ladder.
#[derive(Clone, Copy, PartialEq, Eq)]
pub struct Counts {
    pub words: usize,
    pub rungs: usize,
}
