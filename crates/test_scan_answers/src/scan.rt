// A scan, made a given number of times, each time on a fresh copy of the table and of the timers.
ghost use Rattle.std.specs.Prelude.{◌≤◌, length};

use questions::Refusal;
use rungs::Slices;
use table::Halt;
use test_requests::parts::Timers;
use timers::Columns;

pub const MOST_TABLE_BYTES: usize = 1100;

#[derive(Clone, Copy, PartialEq, Eq)]
pub enum Kind {
    Ladder,
    List,
}

#[derive(Clone, Copy)]
pub enum Answer {
    Ladder(Result<Halt<ladder_definitions::Counts>, Refusal>),
    List(Result<Halt<list_definitions::Counts>, Refusal>),
}

// What is put where no turn is made, of both kinds.
const NONE_SCANNED: Answer = Answer::Ladder(Ok(Halt::Stopped(ladder_definitions::Counts {
    rungs: 0,
    moved: 0,
})));

// What every turn of a scan is given, but for what it changes.
#[derive(Clone, Copy)]
pub struct Scan<'a> {
    pub kind: Kind,
    pub vars: u32,
    pub lent: Slices<'a>,
    pub watchdog: u32,
    pub tick: u32,
}

impl Scan<'_> {
    fn once(&self, times: &mut [u32], table: &mut [u8], columns: &mut Columns) -> Answer {
        let Scan {
            kind,
            vars,
            lent,
            watchdog,
            tick,
        } = *self;
        match kind {
            Kind::Ladder => Answer::Ladder(ladder::ladder_scan(
                vars, lent, times, table, watchdog, columns, tick,
            )),
            Kind::List => Answer::List(list::list_scan(
                vars, lent, times, table, watchdog, columns, tick,
            )),
        }
    }

    // The last turn's answer. What a scan changes is as it was given at the start of each turn, but for the times entered: a list scan sets
    // these for itself alone, and where it refuses it touches none.
    pub fn turns(
        &self,
        times: &mut [u32],
        table: &mut [u8],
        timers: &mut Timers,
        turns: u32,
    ) -> Answer
        requires { length table.old ≤ 1100 }
    {
        let given_timers = *timers;
        let mut given_table = [0; MOST_TABLE_BYTES];
        let given_table = &mut given_table[..table.len()];
        given_table.copy_from_slice(table);
        let mut answer = NONE_SCANNED;
        for _ in 0..turns {
            table.copy_from_slice(given_table);
            timers.restore(&given_timers);
            answer = self.once(times, table, &mut timers.lend());
        }
        answer
    }
}
