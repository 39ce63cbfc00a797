// One scan of a list. "Stood at a record's offset" is never a search on straight runs: `next` is the first record that does not
// begin before the index, so the instruction stands at an offset just when it is that record's; a jump finds it anew, by halving.
// 02, Req 04: where it does, that record's times entered get one more.
// Req 06: timer records are lent as one slice of numbers, five a record, and a scan has one tick.
#![tactic(auto)]

ghost use Rattle.questions.specs.Tests.{bit};
ghost use Rattle.std.specs.Prelude.{◌≡◌, ◌+◌, ◌≤◌, ◌<◌, ◌^◌, length, get_or};
ghost use Rattle.table.specs.State.{state_of};
ghost use Rattle.table.specs.TimerRecords.{timers_in};
ghost use Rattle.rungs.specs.Records.{none_entered};
ghost use Rattle.list_machine.specs.Parts.{Stepped, Scanned, Ran, Sought, Followed};
ghost use Rattle.list_machine.specs.Parts.{first_machine, first_place, begins_here, counted, runs_on, halted_at};

use list_definitions::Counts;
use table::{Halt, State};

// What each instruction changes, beside the state: accumulator, index, and how many instructions were carried out and rungs entered.
#[derive(Clone, Copy)]
pub struct Machine {
    pub accumulator: bool,
    pub index: usize,
    pub instructions: u32,
    pub rungs: u32,
}

// Where a scan stands among the records: at an index, with the first record that does not begin before it; `entered` where that
// record begins there.
#[derive(Clone, Copy)]
pub struct Place {
    pub index: usize,
    pub next: usize,
    pub entered: bool,
}

// The instruction at the machine's index; `entered` where it stands at a record's offset.
fn step(m: &mut Machine, code: &[u32], entered: bool, state: &mut State)
    requires { (m.old.index < length code.now) × (m.old.instructions + 1 < 2 ^ 32) × (m.old.rungs + bit entered < 2 ^ 32)
        × (state.old.moved + 1 < 2 ^ 32) }
    ensures { Stepped (get_or code.now m.old.index 0) (bit entered) m.old state.old m.new state.new }
{
    let effect = list_instructions::carry_out(code[m.index], m.accumulator, m.index + 1, state);
    *m = Machine {
        accumulator: effect.accumulator,
        index: effect.index,
        instructions: m.instructions + 1,
        rungs: m.rungs + u32::from(entered),
    };
}

// Whether the record `next` begins at the index.
fn begins_here(offsets: &[u32], next: usize, index: usize) -> bool
    ensures { result ≡ begins_here offsets.now next index }
{
    next < offsets.len() && offsets[next] as usize == index
}

// The first record that does not begin before the index.
fn seek(offsets: &[u32], index: usize) -> usize
    ensures { Sought offsets.now index result }
{
    offsets.partition_point(|offset| (*offset as usize) < index)
}

// The place at the index after it.
fn follow(offsets: &[u32], place: Place, index: usize) -> Place
    requires { (place.index + 1 < 2 ^ 64) × (place.next + bit place.entered < 2 ^ 64) }
    ensures { Followed offsets.now place index result }
{
    let next = if index == place.index + 1 {
        place.next + usize::from(place.entered)
    } else {
        seek(offsets, index)
    };
    Place {
        index,
        next,
        entered: begins_here(offsets, next, index),
    }
}

// 02, Req 04: one more time entered for the record that begins at the place, if one does.
#[tactic(auto, unfolding(crate::specs::Parts::counted))]
fn count_entry(times: &mut [u32], place: Place)
    requires { (place.next + bit place.entered ≤ length times.old)
        × (get_or times.old place.next 0 + bit place.entered < 2 ^ 32) }
    ensures { times.new ≡ counted times.old place.next (bit place.entered) }
{
    if place.entered {
        let record = place.next;
        times[record] += 1;
    }
}

// The machine before the first instruction, written out and no `Default`: the edit scan_counts_from_one begins with another.
#[tactic(auto, unfolding(crate::specs::Parts::first_machine))]
fn first_machine() -> Machine
    ensures { result ≡ first_machine }
{
    Machine {
        accumulator: false,
        index: 0,
        instructions: 0,
        rungs: 0,
    }
}

// Whether there is an instruction to carry out: the machine is before the end, and the watchdog has not come.
#[tactic(auto, unfolding(crate::specs::Parts::runs_on))]
fn runs_on(m: Machine, end: usize, watchdog: u32) -> bool
    ensures { result ≡ runs_on end watchdog m }
{
    m.index < end && m.instructions != watchdog
}

// How a machine that does not run on halted, with its counts: at the end, Ended, and else Stopped.
#[tactic(auto, unfolding(crate::specs::Parts::halted_at))]
fn halted_at(m: Machine, end: usize, moved: u32) -> Halt<Counts>
    ensures { result ≡ halted_at end moved m }
{
    let counts = Counts {
        instructions: m.instructions,
        rungs: m.rungs,
        moved,
    };
    if end <= m.index {
        Halt::Ended(counts)
    } else {
        Halt::Stopped(counts)
    }
}

// The place at index 0.
#[tactic(auto, unfolding(crate::specs::Parts::first_place))]
fn first_place(offsets: &[u32]) -> Place
    ensures { result ≡ first_place offsets.now }
{
    Place {
        index: 0,
        next: 0,
        entered: begins_here(offsets, 0, 0),
    }
}

// A scan with a watchdog, from times entered that are all 0 and nothing turned over. Each instruction changes the machine, which is lent to
// `step`, and the state; the machine says whether there is another, so this is no loop over a range.
fn scan(
    code: &[u32],
    offsets: &[u32],
    times: &mut [u32],
    state: &mut State,
    watchdog: u32,
) -> Halt<Counts>
    requires { (length times.old ≡ length offsets.now) × (times.old ≡ none_entered (length times.old)) × (state.old.moved ≡ 0) }
    ensures { Scanned code.now offsets.now times.old state.old watchdog result times.new state.new }
{
    let mut m = first_machine();
    let mut place = first_place(offsets);
    while runs_on(m, code.len(), watchdog) {
        count_entry(times, place);
        step(&mut m, code, place.entered, state);
        place = follow(offsets, place, m.index);
    }
    halted_at(m, code.len(), state.moved)
}

// A scan with a watchdog. 02, Req 04: it "sets every field for that scan alone", so each begins at 0.
pub fn run(
    vars: u32,
    code: &[u32],
    offsets: &[u32],
    times: &mut [u32],
    table: &mut [u8],
    timers: &mut [u32],
    tick: u32,
    watchdog: u32,
) -> Halt<Counts>
    requires { length times.old ≡ length offsets.now }
    ensures { Ran code.now offsets.now times.old
        (state_of vars table.old (timers_in timers.old) tick) watchdog
        result times.new table.new (timers_in timers.new) }
{
    times.fill(0);
    let mut state = State {
        vars,
        table,
        timers,
        tick,
        moved: 0,
    };
    scan(code, offsets, times, &mut state, watchdog)
}
