// One scan of a ladder: document 01, "What a ladder does".
#![tactic(auto)]

ghost use Rattle.std.specs.Prelude.{◌≡◌, Ok};
ghost use Rattle.table.specs.State.{state_of};
ghost use Rattle.table.specs.TimerRecords.{timers_in};
ghost use Rattle.table.specs.Parts.{state_in};
ghost use Rattle.ladder_walk.specs.Walking.{SameLent};
ghost use Rattle.ladder_scanning.specs.Scanned.{WithinLimits, Scanned};

use ladder_definitions::Counts;
use ladder_walk::Ran;
use rungs::Slices;
use table::{Halt, State};

// A scan with a rung watchdog, of a state in which nothing is turned over yet.
fn scan(ladder: Slices, state: &mut State, watchdog: u32) -> Halt<Counts>
    requires limits { WithinLimits ladder.words.now watchdog }
    requires none_turned { state.old.moved ≡ 0 }
    ensures scanned { Scanned ladder.entry.words.now ladder.entry.labels.now ladder.entry.offsets.now
        (state_in state.old) watchdog (Ok result) state.new.table.now (timers_in state.new.timers.now) }
    ensures same { SameLent state.old state.new }
{
    let Slices {
        words,
        labels,
        offsets,
        ..
    } = ladder;
    let mut entered = 0;
    let mut rung = 0;
    // A jump says which rung comes next, so this is no `for` over the rungs.
    loop {
        let counts = Counts {
            rungs: entered,
            moved: state.moved,
        };
        if labels.len() <= rung {
            return Halt::Ended(counts);
        }
        if entered == watchdog {
            return Halt::Stopped(counts);
        }
        entered += 1;
        let start = rungs::at_or(offsets, rung, 0) as usize;
        match ladder_walk::run_rung(words, start, state) {
            Ran::Onward { .. } => {
                rung += 1;
            }
            Ran::Jumped { label } => {
                rung = rungs::place_of(rungs::search_label(labels, label));
            }
        }
    }
}

// A scan with a rung watchdog, of what is lent.
pub fn run(
    vars: u32,
    ladder: Slices,
    table: &mut [u8],
    timers: &mut [u32],
    tick: u32,
    watchdog: u32,
) -> Halt<Counts>
    requires { WithinLimits ladder.words.now watchdog }
    ensures { Scanned ladder.entry.words.now ladder.entry.labels.now ladder.entry.offsets.now
        (state_of vars table.old (timers_in timers.old) tick) watchdog
        (Ok result) table.new (timers_in timers.new) }
{
    let mut state = State {
        vars,
        table,
        timers,
        tick,
        moved: 0,
    };
    scan(ladder, &mut state, watchdog)
}
