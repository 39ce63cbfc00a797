// The parts of a request, and of what is lent to a call, that are several arrays side by side: records and timers.
ghost use Rattle.std.specs.Prelude.{◌≤◌, length};

use crate::input::{Bad, Input};
use rungs::{Buffers, Slices};
use timers::Columns;

// Words of a ladder, or instructions of a list.
pub const MOST_WORDS: usize = 20000;

pub const MOST_RECORDS: usize = 400;

pub const MOST_TIMERS: usize = 40;

// A count with its bound is a struct of its own, since a struct with a ghost field lends no part of an array.
#[derive(Clone, Copy)]
pub struct RecordCount {
    pub value: usize,
    ghost in_room: { value ≤ 400 },
}

#[derive(Clone, Copy)]
pub struct TimerCount {
    pub value: usize,
    ghost in_room: { value ≤ 40 },
}

// Up to 400 records, `count` of them.
#[derive(Drop)]
pub struct Records {
    pub labels: [u16; MOST_RECORDS],
    pub offsets: [u32; MOST_RECORDS],
    pub lengths: [u32; MOST_RECORDS],
    pub times: [u32; MOST_RECORDS],
    pub count: RecordCount,
}

// Up to 40 timers, `count` of them.
#[derive(Clone, Copy)]
pub struct Timers {
    pub preset: [u32; MOST_TIMERS],
    pub start: [u32; MOST_TIMERS],
    pub variable: [u16; MOST_TIMERS],
    pub running: [u8; MOST_TIMERS],
    pub done: [u8; MOST_TIMERS],
    pub count: TimerCount,
}

#[derive(Clone, Copy)]
pub struct Timer {
    pub preset: u32,
    pub start: u32,
    pub variable: u16,
    pub running: u8,
    pub done: u8,
}

#[derive(Clone, Copy, PartialEq, Eq)]
pub struct Record {
    pub label: u16,
    pub offset: u32,
    pub length: u32,
    pub times: u32,
}

// The filling of a buffer of records.
const FILLING: Record = Record {
    label: u16::MAX,
    offset: u32::MAX,
    length: u32::MAX,
    times: u32::MAX,
};

fn first<T>(items: &mut [T], count: usize) -> &mut [T]
    requires { count ≤ length items.old }
{
    &mut items[..count]
}

impl Records {
    // Records that hold nothing but the filling.
    pub fn filled(count: usize) -> Records
        requires { count ≤ 400 }
    {
        Records {
            labels: [FILLING.label; MOST_RECORDS],
            offsets: [FILLING.offset; MOST_RECORDS],
            lengths: [FILLING.length; MOST_RECORDS],
            times: [FILLING.times; MOST_RECORDS],
            count: RecordCount { value: count },
        }
    }

    pub fn record(&self, at: usize) -> Record
        requires { at ≤ 399 }
    {
        Record {
            label: self.labels[at],
            offset: self.offsets[at],
            length: self.lengths[at],
            times: self.times[at],
        }
    }

    // A ladder, or a list, of these words and records, and the times entered, which a List scan changes.
    pub fn lend<'a>(&'a mut self, words: &'a [u32]) -> (Slices<'a>, &'a mut [u32]) {
        let count = self.count.value;
        let slices = Slices {
            words,
            labels: &self.labels[..count],
            offsets: &self.offsets[..count],
            lengths: &self.lengths[..count],
        };
        (slices, first(self.times.as_mut_slice(), count))
    }

    // Room for a ladder, or a list.
    pub fn buffers<'a>(&'a mut self, words: &'a mut [u32]) -> Buffers<'a> {
        let count = self.count.value;
        Buffers {
            words,
            labels: first(self.labels.as_mut_slice(), count),
            offsets: first(self.offsets.as_mut_slice(), count),
            lengths: first(self.lengths.as_mut_slice(), count),
            times: first(self.times.as_mut_slice(), count),
        }
    }

    fn put(&mut self, at: usize, record: Record)
        requires { at ≤ 399 }
    {
        self.labels[at] = record.label;
        self.offsets[at] = record.offset;
        self.lengths[at] = record.length;
        self.times[at] = record.times;
    }

    // How far the records reach that are not the filling alone.
    pub fn reach(&self) -> usize
        ensures { result ≤ self.now.count.value }
    {
        (0..self.count.value)
            .rposition(|at| self.record(at) != FILLING)
            .map_or(0, |last| last + 1)
    }
}

impl Timers {
    pub fn lend(&mut self) -> Columns<'_> {
        let count = self.count.value;
        Columns {
            preset: &self.preset[..count],
            start: first(self.start.as_mut_slice(), count),
            variable: &self.variable[..count],
            running: first(self.running.as_mut_slice(), count),
            done: first(self.done.as_mut_slice(), count),
        }
    }

    pub fn timer(&self, at: usize) -> Timer
        requires { at ≤ 39 }
    {
        Timer {
            preset: self.preset[at],
            start: self.start[at],
            variable: self.variable[at],
            running: self.running[at],
            done: self.done[at],
        }
    }

    fn put(&mut self, at: usize, timer: Timer)
        requires { at ≤ 39 }
    {
        self.preset[at] = timer.preset;
        self.start[at] = timer.start;
        self.variable[at] = timer.variable;
        self.running[at] = timer.running;
        self.done[at] = timer.done;
    }

    // What a scan changes, as it was given.
    pub fn restore(&mut self, given: &Timers) {
        let count = self.count.value;
        self.start[..count].copy_from_slice(&given.start[..count]);
        self.running[..count].copy_from_slice(&given.running[..count]);
        self.done[..count].copy_from_slice(&given.done[..count]);
    }
}

impl Input {
    fn record(&mut self) -> Result<Record, Bad> {
        Ok(Record {
            label: self.item()?,
            offset: self.next()?,
            length: self.next()?,
            times: self.next()?,
        })
    }

    // Records of the line, their count first.
    pub fn records(&mut self) -> Result<Records, Bad> {
        let count = self.count(MOST_RECORDS)?;
        let mut records = Records::filled(count);
        for at in 0..count {
            records.put(at, self.record()?);
        }
        Ok(records)
    }

    // The next number of the line, 0 or 1.
    fn flag(&mut self) -> Result<u8, Bad> {
        Ok(self.count(1)? as u8)
    }

    fn timer(&mut self) -> Result<Timer, Bad> {
        Ok(Timer {
            preset: self.next()?,
            start: self.next()?,
            variable: self.item()?,
            running: self.flag()?,
            done: self.flag()?,
        })
    }

    // Timers of the line, their count first.
    pub fn timers(&mut self) -> Result<Timers, Bad> {
        let count = self.count(MOST_TIMERS)?;
        let mut timers = Timers {
            preset: [0; MOST_TIMERS],
            start: [0; MOST_TIMERS],
            variable: [0; MOST_TIMERS],
            running: [0; MOST_TIMERS],
            done: [0; MOST_TIMERS],
            count: TimerCount { value: count },
        };
        for at in 0..count {
            timers.put(at, self.timer()?);
        }
        Ok(timers)
    }
}
