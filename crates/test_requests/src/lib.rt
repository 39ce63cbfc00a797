// What the programs that answer test requests share: the input, the output, and the parts of a request.
#![tactic(auto)]

pub mod cases;
pub mod input;
pub mod output;
pub mod parts;
