// Writes answers: text, and numbers one space apart, into a room that goes to standard output whenever it is full.
ghost use Rattle.std.specs.Prelude.{◌≡◌, ◌≤◌};

use crate::parts::{Record, Records, Timer, Timers};
use questions::Refusal;
use std::fmt;
use std::fmt::{Display, Write};
use std::io::Stdout;

const ROOM: usize = 65536;

// The first `placed` bytes of the room wait to be written.
#[derive(Drop)]
pub struct Output {
    stdout: Stdout,
    room: [u8; ROOM],
    placed: usize,
    ghost in_room: { placed ≤ 65536 },
}

// `write_str` is what `write!` needs.
impl fmt::Write for Output {
    fn write_str(&mut self, text: &str) -> fmt::Result {
        self.bytes(text.as_bytes());
        Ok(())
    }
}

impl Output {
    pub fn new(stdout: Stdout) -> Output {
        Output {
            stdout,
            room: [0; ROOM],
            placed: 0,
        }
    }

    // Writes out what waits. A test program has nobody to tell that it could not: its output is then short.
    pub fn flush(&mut self)
        ensures { self.new.placed ≡ 0 }
    {
        let placed = self.placed;
        let _ = self.stdout.write_all(&self.room[..placed]);
        self.placed = 0;
    }

    pub fn byte(&mut self, byte: u8) {
        if self.placed == ROOM {
            self.flush();
        }
        self.room[self.placed] = byte;
        self.placed += 1;
    }

    pub fn bytes(&mut self, bytes: &[u8]) {
        for byte in bytes {
            self.byte(*byte);
        }
    }

    // A text, which may be of several parts, as `format_args!` makes it. It is always taken whole.
    pub fn put<D: Display + Drop>(&mut self, text: D) {
        let _ = self.write(text);
    }

    // A space and a number.
    pub fn next<N: Display + Drop>(&mut self, number: N) {
        self.byte(b' ');
        self.put(number);
    }

    // Each number after a space.
    pub fn items<N: Copy + Display + Drop>(&mut self, items: &[N]) {
        for item in items {
            self.next(*item);
        }
    }

    // A buffer that was filled before the call: how many items, these, and how many follow.
    pub fn buffer<N: Copy + Display + Drop + PartialEq>(&mut self, buffer: &[N], filling: N) {
        let reach = buffer
            .iter()
            .rposition(|item| *item != filling)
            .map_or(0, |last| last + 1);
        self.next(reach);
        self.items(&buffer[..reach]);
        self.next(buffer.len() - reach);
    }

    // The same of a buffer of records.
    pub fn records(&mut self, records: &Records) {
        let reach = records.reach();
        self.next(reach);
        for at in 0..reach {
            let Record {
                label,
                offset,
                length,
                times,
            } = records.record(at);
            self.put(format_args!(" {label} {offset} {length} {times}"));
        }
        self.next(records.count.value - reach);
    }

    pub fn timers(&mut self, timers: &Timers) {
        for at in 0..timers.count.value {
            let Timer {
                preset,
                start,
                variable,
                running,
                done,
            } = timers.timer(at);
            self.put(format_args!(" {preset} {start} {variable} {running} {done}"));
        }
    }

    // How an answer begins that is a refusal.
    pub fn refusal(&mut self, refusal: Refusal) {
        self.put(format_args!("0 {} {}", refusal.number(), refusal.place()));
    }
}
