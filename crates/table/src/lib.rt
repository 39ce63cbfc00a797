// The table that both scans work on: document 01, "What a ladder does". Past the table's end a byte is false and a write does nothing.
#![tactic(auto)]

ghost use Rattle.std.specs.Prelude.{◌≡◌, ◌+◌, ◌<◌, ◌^◌};
ghost use Rattle.questions.specs.Tests.{bit};
ghost use Rattle.table.specs.State.{value_at, value, turns, write, write_if};
ghost use Rattle.table.specs.Parts.{TableChanged, state_in, Changed};
ghost use Rattle.table.specs.Questions.{table_in_range};

// Scratch t0 to t31 stands after the variables.
pub const SCRATCH_BYTES: usize = 32;

// How a scan halted, with its counts: past the last rung or instruction, or at its watchdog.
#[derive(Clone, Copy, PartialEq, Eq)]
pub enum Halt<C> {
    Ended(C),
    Stopped(C),
}

// The value of the byte at an index of a table.
pub fn value(table: &[u8], index: usize) -> bool
    ensures { result ≡ value_at table.now index }
{
    table.get(index).is_some_and(|byte| *byte != 0)
}

// Whether writing b turns a variable over. Scratch is no variable.
fn turns(vars: u32, table: &[u8], index: usize, b: bool) -> bool
    ensures { result ≡ turns vars table.now index b }
{
    index < vars as usize && value(table, index) != b
}

// Writes a byte, and gives how many times variables have been turned over, this write counted.
pub fn write(vars: u32, table: &mut [u8], index: usize, b: bool, moved: u32) -> u32
    requires { moved + 1 < 2 ^ 32 }
    ensures { TableChanged vars table.old moved (λ s. write s index b) result table.new }
{
    let sum = moved + u32::from(turns(vars, table, index, b));
    if index < table.len() {
        table[index] = u8::from(b);
    }
    sum
}

// With power as write, and without power nothing.
pub fn write_if(vars: u32, table: &mut [u8], index: usize, power: bool, b: bool, moved: u32) -> u32
    requires { moved + 1 < 2 ^ 32 }
    ensures { TableChanged vars table.old moved (λ s. write_if power s index b) result table.new }
{
    if power {
        write(vars, table, index, b, moved)
    } else {
        moved
    }
}

// What a scan works on: V, the lent table, the lent timer records in one slice of numbers, five a record, the tick of the scan, and how many
// times variables have been turned over. A scratch byte is no variable.
#[derive(Drop)]
pub struct State<'a> {
    pub vars: u32,
    pub table: &'a mut [u8],
    pub timers: &'a mut [u32],
    pub tick: u32,
    pub moved: u32,
}

impl State<'_> {
    pub fn value(&self, index: usize) -> bool
        ensures { result ≡ value (state_in self.now) index }
    {
        value(self.table, index)
    }

    // Writes a byte, and counts where that turns a variable over. Every number of the timer records stays.
    pub fn write(&mut self, index: usize, b: bool)
        requires { self.old.moved + 1 < 2 ^ 32 }
        ensures timers { self.new.timers.now ≡ self.old.timers.now }
        ensures changed { Changed self.old self.new (λ s. write s index b) }
    {
        self.moved = write(self.vars, self.table, index, b, self.moved);
    }

    // With power as write, and without power nothing.
    pub fn write_if(&mut self, index: usize, power: bool, b: bool)
        requires { self.old.moved + 1 < 2 ^ 32 }
        ensures timers { self.new.timers.now ≡ self.old.timers.now }
        ensures changed { Changed self.old self.new (λ s. write_if power s index b) }
    {
        self.moved = write_if(self.vars, self.table, index, power, b, self.moved);
    }
}

// Question 11.
pub fn table_in_range(vars: u32, table: &[u8]) -> bool
    ensures { result ≡ table_in_range vars table.now }
{
    table.len() == vars as usize + SCRATCH_BYTES && table.iter().all(|byte| *byte <= 1)
}
