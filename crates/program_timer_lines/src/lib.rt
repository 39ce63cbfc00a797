// The lines of the input of ladder-scan between the variables and the text: the tick, and timer lines, which become records. README,
// "ladder-scan"; document 02, Req 06.
#![tactic(auto)]

ghost use Rattle.std.specs.Prelude.{◌≡◌};
ghost use Rattle.program_timer_lines.specs.Fields.{next_digit, next_byte, field_of, FieldRead, WordRead, BreakTaken};
ghost use Rattle.program_timer_lines.specs.Timers.{NowRead, LineRead, Held, TimersRead};

use text_grammar::MOST_NUMBER;
use timers::{MOST_TIMERS, NUMBERS, Timer};

// Of more timer records than question 16 takes, one too many is held.
pub const HELD_NUMBERS: usize = NUMBERS * (MOST_TIMERS + 1);

const MOST_TICK: u32 = 4294967295;

// What the bytes of a field so far are: none, a number, or no number. Three states of a reader, of which no two are one Option.
#[derive(Clone, Copy, PartialEq, Eq)]
pub enum Digits {
    Empty,
    Value(u32),
    Wrong,
}

// A field that is a number: which; whether a space ended it; and where the next begins, or the line's end stands. `spaced` says nothing of the
// number: both stand always.
#[derive(Clone, Copy)]
pub struct Field {
    pub value: u32,
    pub spaced: bool,
    pub at: usize,
}

impl Digits {
    // A byte after digits of this value.
    #[tactic(auto, unfolding(crate::specs::Fields::next_digit))]
    fn after(value: u32, byte: u8, most: u32) -> Digits
        ensures { result ≡ next_digit most value byte }
    {
        let Some(digit) = program_numbers::digit_of(byte) else {
            return Digits::Wrong;
        };
        let more = u64::from(value) * 10 + u64::from(digit);
        match u32::try_from(more) {
            Ok(more) if more <= most => Digits::Value(more),
            _ => Digits::Wrong,
        }
    }

    // A field with one byte more; nothing follows a 0 that it begins with.
    #[tactic(auto, unfolding(crate::specs::Fields::next_byte))]
    fn next(self, byte: u8, most: u32) -> Digits
        ensures { result ≡ next_byte most self byte }
    {
        match self {
            Digits::Empty => Digits::after(0, byte, most),
            Digits::Value(0) | Digits::Wrong => Digits::Wrong,
            Digits::Value(value) => Digits::after(value, byte, most),
        }
    }

    // The field that they are, if they are a number.
    #[tactic(auto, unfolding(crate::specs::Fields::field_of))]
    fn field(self, spaced: bool, at: usize) -> Option<Field>
        ensures { result ≡ field_of self spaced at }
    {
        match self {
            Digits::Value(value) => Some(Field { value, spaced, at }),
            Digits::Empty | Digits::Wrong => None,
        }
    }
}

// The field from a position up to the next space, LF or the end, if it is a number up to `most`.
fn take_field(input: &[u8], from: usize, most: u32) -> Option<Field>
    ensures { FieldRead input.now from most result }
{
    let mut digits = Digits::Empty;
    for i in from..input.len() {
        match input[i] {
            b'\n' => return digits.field(false, i),
            b' ' => return digits.field(true, i + 1),
            byte => digits = digits.next(byte, most),
        }
    }
    digits.field(false, from.max(input.len()))
}

// Where what follows a word begins, if the word stands at a position.
fn after_word(input: &[u8], from: usize, word: &[u8]) -> Option<usize>
    ensures { WordRead input.now from word.now result }
{
    let rest = &input[from.min(input.len())..];
    if !rest.starts_with(word) {
        return None;
    }
    Some(from + word.len())
}

// Where the next line begins, from the end of one.
fn after_break(input: &[u8], at: usize) -> usize
    ensures { BreakTaken input.now at result }
{
    if at < input.len() && input[at] == b'\n' {
        at + 1
    } else {
        at
    }
}

// The tick, and where what follows its line begins.
#[derive(Clone, Copy)]
pub struct NowTaken {
    pub tick: u32,
    pub at: usize,
}

// The tick of a line `now N`; without such a line it is 0.
pub fn take_now(input: &[u8], from: usize) -> NowTaken
    ensures { NowRead input.now from result }
{
    let none = NowTaken { tick: 0, at: from };
    let Some(at) = after_word(input, from, b"now ") else {
        return none;
    };
    let Some(number) = take_field(input, at, MOST_TICK) else {
        return none;
    };
    if number.spaced {
        return none;
    }
    NowTaken {
        tick: number.value,
        at: after_break(input, number.at),
    }
}

// A line `timer PRESET START VARIABLE RUNNING DONE`, and where the next begins.
#[derive(Clone, Copy)]
pub struct TimerLine {
    pub preset: u32,
    pub start: u32,
    pub variable: u32,
    pub running: u32,
    pub done: u32,
    pub at: usize,
}

// The line of a timer, if it is one.
fn timer_line(input: &[u8], from: usize) -> Option<TimerLine>
    ensures { LineRead input.now from result }
{
    let at = after_word(input, from, b"timer ")?;
    let preset = take_field(input, at, MOST_TICK)?;
    let start = take_field(input, preset.at, MOST_TICK)?;
    let variable = take_field(input, start.at, MOST_NUMBER)?;
    let running = take_field(input, variable.at, 1)?;
    let done = take_field(input, running.at, 1)?;
    if done.spaced {
        return None;
    }
    Some(TimerLine {
        preset: preset.value,
        start: start.value,
        variable: variable.value,
        running: running.value,
        done: done.value,
        at: after_break(input, done.at),
    })
}

// The record of a line after the numbers that are held, where there is room; and how many are held then.
#[tactic(auto, unfolding(table::specs::TimerRecords::numbers_of))]
fn hold(numbers: &mut [u32], count: usize, line: TimerLine) -> usize
    ensures { Held numbers.old count line result numbers.new }
{
    if numbers.len().saturating_sub(count) < NUMBERS {
        return count;
    }
    let TimerLine {
        preset,
        start,
        variable,
        running,
        done,
        ..
    } = line;
    let timer = Timer {
        preset,
        start,
        variable,
        running,
        done,
    };
    timers::put_timer(numbers, count, timer);
    count + NUMBERS
}

// How many numbers of timer records are held, and where the text begins.
#[derive(Clone, Copy)]
pub struct TimersTaken {
    pub count: usize,
    pub at: usize,
}

// The timer lines from a position on; of their records as many are held as there is room for.
pub fn take_timers(input: &[u8], from: usize, numbers: &mut [u32]) -> TimersTaken
    ensures { TimersRead input.now from numbers.old result numbers.new }
{
    let mut count = 0;
    let mut at = from;
    // Up to a line that is no timer's, so no count by a `for`.
    while let Some(line) = timer_line(input, at) {
        count = hold(numbers, count, line);
        at = line.at;
    }
    TimersTaken { count, at }
}
