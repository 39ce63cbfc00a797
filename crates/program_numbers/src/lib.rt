// Lines that are a number, byte by byte, and the text after them. Document 01, "Listing".
#![tactic(auto)]

ghost use Rattle.std.specs.Prelude.{◌≡◌, ◌+◌, ◌-◌, ◌<◌, ◌≤◌, min, MatchOption};
ghost use Rattle.text_grammar.specs.Reader.{digit_of};
ghost use Rattle.program_numbers.specs.Parts.{step_of, number_by, NumberTaken};
ghost use Rattle.program_numbers.specs.declared.FirstLine.TheVariants.{Empty, Number};

use text_grammar::MOST_NUMBER;

// Up to 65,536 bytes of text are kept.
pub const MOST_KEPT: usize = 65536;

// What the bytes of the first line so far are: none, "0", another number, or no number.
#[derive(Clone, Copy, PartialEq, Eq)]
pub enum FirstLine {
    Empty,
    Zero,
    Number(u32),
    Bad,
}

// The digit that a byte is.
#[tactic(auto, unfolding(text_grammar::specs::Reader::digit_of))]
pub fn digit_of(byte: u8) -> Option<u32>
    ensures { MatchOption result (digit_of byte ≡ 10) (λ digit. (digit ≡ digit_of byte) × (digit < 10)) }
{
    char::from(byte).to_digit(10)
}

impl FirstLine {
    // The line that has one byte.
    #[tactic(auto, unfolding(crate::specs::Parts::step_of))]
    fn first(byte: u8) -> FirstLine
        ensures { result ≡ step_of Empty byte }
    {
        match digit_of(byte) {
            None => FirstLine::Bad,
            Some(0) => FirstLine::Zero,
            Some(digit) => FirstLine::Number(digit),
        }
    }

    // A number's line with one byte more.
    #[tactic(auto, unfolding(crate::specs::Parts::step_of))]
    fn more(value: u32, byte: u8) -> FirstLine
        ensures { result ≡ step_of (Number value) byte }
    {
        let Some(digit) = digit_of(byte) else {
            return FirstLine::Bad;
        };
        if MOST_NUMBER < value {
            return FirstLine::Bad;
        }
        let more = value * 10 + digit;
        let large = MOST_NUMBER < more;
        if large {
            return FirstLine::Bad;
        }
        FirstLine::Number(more)
    }

    // The line with one byte more.
    #[tactic(auto, unfolding(crate::specs::Parts::step_of))]
    pub fn step(self, byte: u8) -> FirstLine
        ensures { result ≡ step_of self byte }
    {
        match self {
            FirstLine::Empty => FirstLine::first(byte),
            FirstLine::Number(value) => FirstLine::more(value, byte),
            FirstLine::Zero | FirstLine::Bad => FirstLine::Bad,
        }
    }

    // The number that the line is, or another.
    #[tactic(auto, unfolding(crate::specs::Parts::number_by))]
    pub fn number_or(self, other: u32) -> u32
        ensures { result ≡ number_by other self }
    {
        match self {
            FirstLine::Number(value) => value,
            FirstLine::Zero => 0,
            FirstLine::Empty | FirstLine::Bad => other,
        }
    }

    // V: the number that the line is, or 0.
    pub fn variables(self) -> u32
        ensures { result ≡ number_by 0 self }
    {
        self.number_or(0)
    }
}

// A line that is a number, or not, and where the next begins.
#[derive(Clone, Copy)]
pub struct Lined {
    pub line: FirstLine,
    pub at: usize,
}

// The line from a position on, byte by byte.
pub fn take_number(input: &[u8], from: usize) -> Lined
    ensures { NumberTaken input.now from result }
{
    let mut line = FirstLine::Empty;
    for i in from..input.len() {
        if input[i] == b'\n' {
            return Lined { line, at: i + 1 };
        }
        line = line.step(input[i]);
    }
    Lined {
        line,
        at: input.len(),
    }
}

// Where the kept bytes that begin at a position end: up to `most` are kept.
pub fn kept_end(length: usize, at: usize, most: usize) -> usize
    ensures { result ≡ at + min (length - at) most }
{
    at + length.saturating_sub(at).min(most)
}
