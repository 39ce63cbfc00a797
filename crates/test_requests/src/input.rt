// Reads requests: numbers, one space apart, and each request on a line of its own.
ghost use Rattle.std.specs.Prelude.{◌≤◌, length, IfOk};

use program_chunks::Reading;
use std::io;
use std::io::Stdin;

// How many digits of a number are read, at most.
const MOST_DIGITS: u32 = 4000000000;

const CHUNK: usize = 65536;

// A malformed or oversized request. Nothing is read after it.
#[derive(Clone, Copy)]
pub struct Bad;

// What ended a number: a space, a line's end, the input's end, or the input's end where no number began. Anything else is no good, as another
// byte, a read that failed, or no digit before a space.
#[derive(Clone, Copy, PartialEq, Eq)]
enum Stop {
    Space,
    Line,
    End,
    Nothing,
    Other,
}

impl Stop {
    // What the first byte that is no digit says of the number before it.
    fn of(byte: io::Result<Option<u8>>, digits: u32) -> Stop {
        match byte {
            Ok(None) if digits == 0 => Stop::Nothing,
            Ok(None) => Stop::End,
            Ok(Some(b' ')) if digits != 0 => Stop::Space,
            Ok(Some(b'\n')) if digits != 0 => Stop::Line,
            _ => Stop::Other,
        }
    }
}

// The chunk holds what was read from standard input and not yet taken, and `stop` is what ended the number read last.
#[derive(Clone, Copy)]
pub struct Input {
    stdin: Stdin,
    chunk: [u8; CHUNK],
    reading: Reading,
    stop: Stop,
}

impl Input {
    pub fn new(stdin: Stdin) -> Input {
        Input {
            stdin,
            chunk: [0; CHUNK],
            reading: Reading::default(),
            stop: Stop::Line,
        }
    }

    // The next byte, or none at the input's end.
    pub fn byte(&mut self) -> io::Result<Option<u8>> {
        program_chunks::next_byte(self.stdin, &mut self.chunk, &mut self.reading)
    }

    // Gives up what the chunk still holds.
    pub fn give_up(&mut self) {
        self.reading = Reading::default();
    }

    // The number that begins here, or none where it is too large.
    pub fn number(&mut self) -> Option<u32> {
        self.stop = Stop::Other;
        let mut value: u32 = 0;
        for digits in 0..MOST_DIGITS {
            match self.byte() {
                Ok(Some(digit @ b'0'..=b'9')) => {
                    value = value.checked_mul(10)?.checked_add(u32::from(digit - b'0'))?;
                }
                byte => {
                    self.stop = Stop::of(byte, digits);
                    return Some(value);
                }
            }
        }
        None
    }

    // The first number of a line, or none at the input's end.
    pub fn first(&mut self) -> Result<Option<u32>, Bad> {
        let number = self.number().ok_or(Bad)?;
        match self.stop {
            Stop::Nothing => Ok(None),
            Stop::Other => Err(Bad),
            _ => Ok(Some(number)),
        }
    }

    // The next number of the line. Where the last one was not followed by a space there is none.
    pub fn next(&mut self) -> Result<u32, Bad> {
        if self.stop != Stop::Space {
            return Err(Bad);
        }
        self.first()?.ok_or(Bad)
    }

    // The next number of the line, as a count that may not be above `most`.
    pub fn count(&mut self, most: usize) -> Result<usize, Bad>
        ensures { IfOk result (λ count. count ≤ most) }
    {
        let count = self.next()? as usize;
        if most < count {
            return Err(Bad);
        }
        Ok(count)
    }

    // Whether the line ended after the last number.
    pub fn line_end(&self) -> Result<(), Bad> {
        match self.stop {
            Stop::Line | Stop::End => Ok(()),
            _ => Err(Bad),
        }
    }

    // The next number of the line, as an item of another type.
    pub fn item<T: TryFrom<u32>>(&mut self) -> Result<T, Bad>
    where
        T::Error: Drop,
    {
        T::try_from(self.next()?).map_err(|_| Bad)
    }

    // Items of the line, as many as there is room for at most, their count first.
    pub fn items<'a, T: TryFrom<u32> + Drop>(&mut self, room: &'a mut [T]) -> Result<&'a [T], Bad>
    where
        T::Error: Drop,
        ensures { IfOk result (λ items. length items.now ≤ length room.old) }
    {
        let count = self.count(room.len())?;
        let items = &mut room[..count];
        for item in items.iter_mut() {
            *item = self.item()?;
        }
        Ok(items)
    }
}
