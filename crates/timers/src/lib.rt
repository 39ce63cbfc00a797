// Timer records in one slice of numbers, five a record, as scans work them; question 16 of them; and the five slices that callers lend.
// Document 02, Req 06.
#![tactic(auto)]

ghost use Rattle.std.specs.Prelude.{◌≡◌, ◌+◌, ◌*◌, ◌^◌, ◌<◌, ◌≤◌, true, ◌||◌, [], ◌∷◌, length, drop, nat_eq, nat_le, slice_index};
ghost use Rattle.std.proofs.lemmas.List.Edits.{sets};
ghost use Rattle.questions.specs.Tests.{all, different, truth};
ghost use Rattle.table.specs.Timer.{started, tested, powered};
ghost use Rattle.table.specs.State.{run_timer};
ghost use Rattle.table.specs.Questions.{timer_below, timer_variables, timers_in_range};
ghost use Rattle.table.specs.TimerRecords.{columns, timers_in, whole, number_timers};
ghost use Rattle.table.specs.Parts.{Changed};
ghost use Rattle.timers.specs.Parts.{timer_of, timer_at, other_variable};
ghost use Rattle.timers.specs.Parts.{can_pack, columns_in, packs, Packable, Packed, Unpackable, Unpacked, SameSlices};

use table::State;

// "16 when there are more than 32 records"
pub const MOST_TIMERS: usize = 32;

// Preset, start, variable, running and done.
pub const NUMBERS: usize = 5;

pub const MOST_NUMBERS: usize = NUMBERS * MOST_TIMERS;

pub const START: usize = 1;

pub const VARIABLE: usize = 2;

pub const RUNNING: usize = 3;

pub const DONE: usize = 4;

// A timer record. A flag is true where it is not 0.
#[derive(Clone, Copy, PartialEq, Eq)]
pub struct Timer {
    pub preset: u32,
    pub start: u32,
    pub variable: u32,
    pub running: u32,
    pub done: u32,
}

impl Timer {
    // The record whose numbers begin at a place.
    fn at(state: &State, at: usize) -> Timer
        requires { at + 5 ≤ length state.now.timers.now }
        ensures { timer_of result ≡ timer_at state.now.timers.now at }
    {
        let timers = &state.timers;
        Timer {
            preset: timers[at],
            start: timers[at + START],
            variable: timers[at + VARIABLE],
            running: timers[at + RUNNING],
            done: timers[at + DONE],
        }
    }

    // The record of the numbers that stand in five slices.
    fn of(preset: u32, start: u32, variable: u16, running: u8, done: u8) -> Timer
        ensures same { timer_of result ≡
            record { preset = preset; start = start; variable = variable; running = running; done = done } }
        ensures bytes { (running < 256) × (done < 256) }
    {
        Timer {
            preset,
            start,
            variable: u32::from(variable),
            running: u32::from(running),
            done: u32::from(done),
        }
    }

    // "A timer not running takes `now` as its start, clears done and runs."
    fn started(self, tick: u32) -> Timer
        ensures { timer_of result ≡ started tick (timer_of self) }
    {
        if self.running != 0 {
            self
        } else {
            Timer {
                start: tick,
                running: 1,
                done: 0,
                ..self
            }
        }
    }

    // "It is done when (now − start) modulo 4,294,967,296 is at least the preset, and once done it remains so while powered."
    fn tested(self, tick: u32) -> Timer
        ensures { timer_of result ≡ tested tick (timer_of self) }
    {
        let elapsed = tick.wrapping_sub(self.start);
        let done = self.done != 0 || self.preset <= elapsed;
        Timer {
            running: 1,
            done: u32::from(done),
            ..self
        }
    }

    // What a timer does with power or without. Its flags are written as 0 or 1.
    fn powered(self, tick: u32, power: bool) -> Timer
        ensures { timer_of result ≡ powered tick power (timer_of self) }
    {
        if power {
            self.started(tick).tested(tick)
        } else {
            Timer {
                running: 0,
                done: 0,
                ..self
            }
        }
    }
}

// The numbers of one record.
pub fn put_timer(timers: &mut [u32], at: usize, timer: Timer)
    requires { at + 5 ≤ length timers.old }
    ensures { timers.new ≡ sets timers.old at
        (timer.preset ∷ timer.start ∷ timer.variable ∷ timer.running ∷ timer.done ∷ []) }
{
    let Timer {
        preset,
        start,
        variable,
        running,
        done,
    } = timer;
    timers[at..at + NUMBERS].copy_from_slice(&[preset, start, variable, running, done]);
}

// Works a timer and writes done to its variable. A number without a record does nothing.
pub fn run_timer(state: &mut State, number: usize, power: bool)
    requires { (state.old.moved + 1 < 2 ^ 32) × (number < 65536) }
    ensures { Changed state.old state.new (λ s. run_timer s number power) }
{
    let at = number * NUMBERS;
    if at + NUMBERS <= state.timers.len() {
        let timer = Timer::at(state, at).powered(state.tick, power);
        put_timer(state.timers, at, timer);
        state.write(timer.variable as usize, timer.done != 0);
    }
}

// Whether every variable is below V.
fn all_below(vars: u32, timers: &[u32]) -> bool
    requires { whole timers.now ≡ true }
    ensures { result ≡ all (timer_below vars) (timers_in timers.now) }
{
    for number in 0..timers.len() / NUMBERS {
        let below = timers[number * NUMBERS + VARIABLE] < vars;
        if !below {
            return false;
        }
    }
    true
}

// Whether no record after the one of a number has its variable.
fn not_shared(timers: &[u32], number: usize) -> bool
    requires { (number * 5 + 5 ≤ length timers.now) × (whole timers.now ≡ true) }
    ensures { result ≡ all (other_variable (slice_index timers.now (number * 5 + 2)))
        (timers_in (drop (number * 5 + 5) timers.now)) }
{
    let variable = timers[number * NUMBERS + VARIABLE];
    for later in number + 1..timers.len() / NUMBERS {
        let shared = timers[later * NUMBERS + VARIABLE] == variable;
        if shared {
            return false;
        }
    }
    true
}

// Whether no two records share a variable.
fn none_shared(timers: &[u32]) -> bool
    requires { whole timers.now ≡ true }
    ensures { result ≡ different nat_eq (timer_variables (timers_in timers.now)) }
{
    for number in 0..timers.len() / NUMBERS {
        if !not_shared(timers, number) {
            return false;
        }
    }
    true
}

// Question 16, of a slice of any length. Numbers that are left over are no record.
pub fn timers_in_range(vars: u32, timers: &[u32]) -> bool
    ensures { result ≡ timers_in_range vars (number_timers timers.now) }
{
    if !timers.len().is_multiple_of(NUMBERS) || MOST_NUMBERS < timers.len() {
        return false;
    }
    all_below(vars, timers) && none_shared(timers)
}

// Whether slices of these lengths are of one length and hold at most 32 records.
pub fn can_pack(preset: usize, start: usize, variable: usize, running: usize, done: usize) -> bool
    ensures { result ≡ can_pack preset start variable running done }
{
    start == preset
        && variable == preset
        && running == preset
        && done == preset
        && preset <= MOST_TIMERS
}

// The records of five slices as numbers, and how many numbers they are.
pub fn pack(
    preset: &[u32],
    start: &[u32],
    variable: &[u16],
    running: &[u8],
    done: &[u8],
    timers: &mut [u32],
) -> usize
    requires { Packable (columns preset.now start.now variable.now running.now done.now) timers.old }
    ensures { Packed (columns preset.now start.now variable.now running.now done.now) result timers.new }
{
    for i in 0..preset.len() {
        let timer = Timer::of(preset[i], start[i], variable[i], running[i], done[i]);
        put_timer(timers, i * NUMBERS, timer);
    }
    preset.len() * NUMBERS
}

// The five slices that callers lend, an entry for each record.
#[derive(Drop)]
pub struct Columns<'a> {
    pub preset: &'a [u32],
    pub start: &'a mut [u32],
    pub variable: &'a [u16],
    pub running: &'a mut [u8],
    pub done: &'a mut [u8],
}

impl Columns<'_> {
    // Whether the slices are of one length and hold at most 32 records.
    pub fn can_pack(&self) -> bool
        ensures { result ≡ packs (columns_in self.now) }
    {
        can_pack(
            self.preset.len(),
            self.start.len(),
            self.variable.len(),
            self.running.len(),
            self.done.len(),
        )
    }

    // The records as numbers, and how many numbers they are.
    pub fn pack(&self, timers: &mut [u32]) -> usize
        requires { Packable (columns_in self.now) timers.old }
        ensures { Packed (columns_in self.now) result timers.new }
    {
        pack(
            self.preset,
            self.start,
            self.variable,
            self.running,
            self.done,
            timers,
        )
    }

    // What a scan changes of records, back into three of the slices.
    pub fn unpack(&mut self, timers: &[u32])
        requires { Unpackable timers.now self.old.start.now self.old.running.now self.old.done.now }
        ensures unpacked { Unpacked timers.now self.new.start.now self.new.running.now self.new.done.now }
        ensures same { SameSlices self.old self.new }
    {
        for i in 0..self.start.len() {
            let at = i * NUMBERS;
            self.start[i] = timers[at + START];
            self.running[i] = timers[at + RUNNING] as u8;
            self.done[i] = timers[at + DONE] as u8;
        }
    }
}
