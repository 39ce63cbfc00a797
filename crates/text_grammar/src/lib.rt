// Bytes and numbers of a text. Document 01, "Text".
#![tactic(auto)]

ghost use Rattle.std.specs.Prelude.{◌<◌};
ghost use Rattle.text_grammar.specs.Numbers.{DigitRead, NumberRead, ByteRead};

// Numbers are 0 to 65,535.
pub const MOST_NUMBER: u32 = 65535;

// A number has at most five digits.
const MORE_DIGITS: usize = 4;

// A number and the position after it.
#[derive(Clone, Copy)]
pub struct Numeral {
    pub value: u32,
    pub next: usize,
}

// The position after a byte that has to stand at a position.
pub fn after(text: &[u8], at: usize, byte: u8) -> Option<usize>
    requires { 0 < byte }
    ensures { ByteRead text.now at byte result }
{
    if rungs::at_or(text, at, 0) == byte {
        Some(at + 1)
    } else {
        None
    }
}

// The digit that stands at a position.
pub fn digit_at(text: &[u8], at: usize) -> Option<u32>
    ensures { DigitRead text.now at result }
{
    let byte = *text.get(at)?;
    if byte.is_ascii_digit() {
        Some(u32::from(byte - b'0'))
    } else {
        None
    }
}

// The longest number that stands at a position: at most 65,535, without leading zeros.
pub fn number(text: &[u8], at: usize) -> Option<Numeral>
    ensures { NumberRead text.now at result }
{
    let mut value = digit_at(text, at)?;
    let mut next = at + 1;
    let zero = value == 0;
    if zero {
        return Some(Numeral { value, next });
    }
    for _ in 0..MORE_DIGITS {
        let Some(digit) = digit_at(text, next) else {
            break;
        };
        let more = value * 10 + digit;
        let large = MOST_NUMBER < more;
        if large {
            break;
        }
        value = more;
        next += 1;
    }
    Some(Numeral { value, next })
}
