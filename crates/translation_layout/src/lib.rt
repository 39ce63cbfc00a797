// A ladder's list, rung by rung: first laid out, then written.
#![tactic(auto)]

ghost use Rattle.std.specs.Prelude.{◌≡◌};
ghost use Rattle.rungs.specs.Buffers.{columns_of, buffers_in, SameLoans};
ghost use Rattle.translation_layout.specs.Parts.{LadderReady, LaidOut, ListPut};

use rungs::{Buffers, Slices};

// A list's instructions, and those of its longest rung.
#[derive(Clone, Copy)]
pub struct Layout {
    pub instructions: usize,
    pub longest: usize,
}

// Where each rung begins in the list, and what the list takes.
pub fn lay_out(vars: u32, ladder: Slices, starts: &mut [u16]) -> Layout
    requires { LadderReady vars ladder.words.now ladder.labels.now ladder.offsets.now starts.old }
    ensures { LaidOut vars ladder.entry.words.now ladder.entry.labels.now ladder.entry.offsets.now result
        starts.old starts.new }
{
    let mut instructions = 0;
    let mut longest = 0;
    for (rung, offset) in ladder.offsets.iter().enumerate() {
        starts[rung] = instructions as u16;
        // A rung is as long wherever its jumps lead: no label is searched.
        let after = translation_code::rung_code(
            vars,
            ladder.words,
            *offset as usize,
            &[],
            &[],
            &mut [],
            instructions,
        );
        longest = rungs::larger(longest, after.put - instructions);
        instructions = after.put;
    }
    Layout {
        instructions,
        longest,
    }
}

// The list's instructions and records.
pub fn write_list(vars: u32, ladder: Slices, starts: &[u16], list: &mut Buffers)
    requires { LadderReady vars ladder.words.now ladder.labels.now ladder.offsets.now starts.now }
    ensures put { ListPut vars ladder.entry.words.now ladder.entry.labels.now ladder.entry.offsets.now starts.now
        (columns_of (buffers_in list.old)) (columns_of (buffers_in list.new)) }
    ensures times { list.new.times.now ≡ list.old.times.now }
    ensures same { SameLoans list.old list.new }
{
    let mut put = 0;
    for (rung, offset) in ladder.offsets.iter().enumerate() {
        let at = *offset as usize;
        let after = translation_code::rung_code(
            vars,
            ladder.words,
            at,
            ladder.labels,
            starts,
            list.words,
            put,
        );
        rungs::put(list.labels, rung, ladder.labels[rung]);
        rungs::put(list.offsets, rung, put as u32);
        rungs::put(list.lengths, rung, (after.put - put) as u32);
        put = after.put;
    }
}
