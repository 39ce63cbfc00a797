// The call Translate: from a kept ladder to its list. Document 01, "Translation".
#![tactic(auto)]

ghost use Rattle.ladder_definitions.specs.Kept.{kept_in};
ghost use Rattle.rungs.specs.Buffers.{buffers_in, SameLoans};
ghost use Rattle.translation_definitions.specs.TranslateKept.{translate_kept, TranslateDone};

use questions::Refusal;
use rungs::{Buffers, MOST_RECORDS, Slices};
pub use translation_definitions::Counts;

// Translate.
pub fn translate(
    vars: u32,
    ladder: Slices,
    times: &[u32],
    list: &mut Buffers,
) -> Result<Counts, Refusal>
    ensures written { TranslateDone (translate_kept vars (kept_in ladder.entry times.now) (buffers_in list.old)) result
        (buffers_in list.new) }
    ensures same { SameLoans list.old list.new }
{
    ladder::ladder_answer(vars, ladder, times)?;
    let mut starts = [0; MOST_RECORDS];
    let layout = translation_layout::lay_out(vars, ladder, &mut starts);
    let counts = Counts {
        instructions: layout.instructions,
        rungs: ladder.offsets.len(),
        longest: layout.longest,
    };
    let room = list.has_room(counts.instructions, counts.rungs);
    if !room {
        return Err(Refusal::Buffer);
    }
    translation_layout::write_list(vars, ladder, &starts, list);
    rungs::put_zeros(list.times, counts.rungs);
    Ok(counts)
}
