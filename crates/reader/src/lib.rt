// The reader of a list's text, with a name table. Document 02, Req 05.
#![tactic(auto)]

ghost use Rattle.std.specs.Prelude.{◌≡◌, length};
ghost use Rattle.rungs.specs.Buffers.{columns_in, buffers_in, SameLoans};
ghost use Rattle.translation_definitions.specs.TranslateKept.{TranslateDone};
ghost use Rattle.reader_definitions.specs.ReadList.{read_list};
ghost use Rattle.reader.specs.Parts.{hand_over};

use list_ops::MOST_INSTRUCTIONS;
use questions::Refusal;
use rungs::{Buffers, MOST_RECORDS, Slices};
pub use translation_definitions::Counts;

mod reading;

// Questions 10 and 13 of a list that was read, and its words and records into the lent buffers. Of the times entered any value is taken:
// the lengths stand for them in question 10.
fn hand_over(vars: u32, longest: usize, new: Slices, lent: &mut Buffers) -> Result<Counts, Refusal>
    requires { (length new.offsets.now ≡ length new.labels.now) × (length new.lengths.now ≡ length new.labels.now) }
    ensures read { TranslateDone (hand_over vars longest (columns_in new.entry) (buffers_in lent.old)) result
        (buffers_in lent.new) }
    ensures same { SameLoans lent.old lent.new }
{
    list::list_answer(vars, new, new.lengths)?;
    let counts = Counts {
        instructions: new.words.len(),
        rungs: new.labels.len(),
        longest,
    };
    if !lent.has_room(counts.instructions, counts.rungs) {
        return Err(Refusal::Buffer);
    }
    lent.put(new);
    Ok(counts)
}

// The reader.
pub fn read_list(
    vars: u32,
    text: &[u8],
    names: &[u8],
    lent: &mut Buffers,
) -> Result<Counts, Refusal>
    ensures read { TranslateDone (read_list names.now vars text.now (buffers_in lent.old)) result
        (buffers_in lent.new) }
    ensures same { SameLoans lent.old lent.new }
{
    if !list_names::is_name_table(names) {
        return Err(Refusal::NameTable);
    }
    if !questions::vars_in_range(vars) {
        return Err(Refusal::Variables);
    }
    let mut words = [0; MOST_INSTRUCTIONS];
    let mut labels = [0; MOST_RECORDS];
    let mut offsets = [0; MOST_RECORDS];
    let mut lengths = [0; MOST_RECORDS];
    // Reading enters no rung, so it writes no times.
    let mut own = Buffers {
        words: &mut words,
        labels: &mut labels,
        offsets: &mut offsets,
        lengths: &mut lengths,
        times: &mut [],
    };
    let Some(sizes) = reading::rungs_of(names, text, vars, &mut own) else {
        return Err(Refusal::ListText);
    };
    if MOST_INSTRUCTIONS < sizes.instructions || MOST_RECORDS < sizes.rungs {
        return Err(Refusal::List);
    }
    let new = Slices {
        words: &words[..sizes.instructions],
        labels: &labels[..sizes.rungs],
        offsets: &offsets[..sizes.rungs],
        lengths: &lengths[..sizes.rungs],
    };
    hand_over(vars, sizes.longest, new, lent)
}
