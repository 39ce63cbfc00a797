// Standard input byte by byte, through a chunk that the caller lends.
#![tactic(auto)]

ghost use Rattle.std.specs.Prelude.{◌≤◌, length, IfOk};

use std::io;
use std::io::{Read, Stdin};

// The chunk's bytes from `at` to `end` are still to be taken; `ended` tells whether the input's end was met. `last` is the byte taken last,
// and `crlf` tells whether an LF was taken after a CR. `Reading::default()` stands before the first byte.
#[derive(Clone, Copy, Default)]
pub struct Reading {
    pub at: usize,
    pub end: usize,
    pub ended: bool,
    pub last: u8,
    pub crlf: bool,
}

// A read into the chunk.
fn refill(mut stdin: Stdin, chunk: &mut [u8], reading: &mut Reading) -> io::Result<()> {
    let end = stdin.read(chunk)?;
    reading.at = 0;
    reading.end = end;
    reading.ended = end == 0;
    Ok(())
}

// The byte at `at`, or none where none is left.
fn take(chunk: &[u8], reading: &mut Reading) -> Option<u8> {
    if reading.end <= reading.at {
        return None;
    }
    let byte = chunk.get(reading.at).copied()?;
    reading.at += 1;
    reading.crlf |= reading.last == b'\r' && byte == b'\n';
    reading.last = byte;
    Some(byte)
}

// The next byte, or none at the input's end. A chunk that is used up is filled again, but not after the input's end; a read that failed
// leaves the reading as it was.
pub fn next_byte(stdin: Stdin, chunk: &mut [u8], reading: &mut Reading) -> io::Result<Option<u8>> {
    if reading.end <= reading.at && !reading.ended {
        refill(stdin, chunk, reading)?;
    }
    Ok(take(chunk, reading))
}

// Gives each byte up to the line's end or the input's, in as many turns as no run uses up.
pub fn take_line<F: FnMut(u8)>(
    stdin: Stdin,
    chunk: &mut [u8],
    reading: &mut Reading,
    mut each: F,
) -> io::Result<()>
    requires { F.IsAlwaysCallable each }
{
    for _ in 0..u64::MAX {
        match next_byte(stdin, chunk, reading)? {
            None | Some(b'\n') => break,
            Some(byte) => each(byte),
        }
    }
    Ok(())
}

// Keeps the bytes that follow, as many as there is room for, and tells how many these are.
pub fn keep_text(
    stdin: Stdin,
    chunk: &mut [u8],
    reading: &mut Reading,
    text: &mut [u8],
) -> io::Result<usize>
    ensures { IfOk result (λ kept. kept ≤ length text.old) }
{
    for kept in 0..text.len() {
        let Some(byte) = next_byte(stdin, chunk, reading)? else {
            return Ok(kept);
        };
        text[kept] = byte;
    }
    Ok(text.len())
}
