// Fronts read from a text, with what all readers share: a part that was read, and words put, moved and copied.
#![tactic(auto)]

pub mod front;
pub mod part;
pub mod words;
