// Lines of standard input that are a number, or not, through a chunk that the caller lends.
#![tactic(auto)]

use program_chunks::Reading;
use program_numbers::FirstLine;
use std::io;
use std::io::Stdin;

// A line, byte by byte.
pub fn number_line(stdin: Stdin, chunk: &mut [u8], reading: &mut Reading) -> io::Result<FirstLine> {
    let mut line = FirstLine::Empty;
    program_chunks::take_line(stdin, chunk, reading, |byte| line = line.step(byte))?;
    Ok(line)
}
