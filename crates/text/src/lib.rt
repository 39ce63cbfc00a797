// The call Read: from a text to a kept ladder. Document 01, "Text".
#![tactic(auto)]

ghost use Rattle.std.specs.Prelude.{◌≡◌, leb, ◌&&◌, length, replicate};
ghost use Rattle.questions.specs.Questions.{most_text_bytes};
ghost use Rattle.rungs.specs.Buffers.{buffers_in, SameLoans};
ghost use Rattle.text_definitions.specs.Read.{read_text, ReadDone};
ghost use Rattle.text.specs.Parts.{read_in, hand_over, fits};

use ladder_kinds::{MOST_RUNG_WORDS, MOST_WORDS};
use questions::Refusal;
use rungs::{Buffers, MOST_RECORDS, Slices};
pub use text_definitions::Counts;
use text_lines::Sizes;

// Text of 1 to 65,535 bytes.
pub const MOST_TEXT_BYTES: usize = 65535;

// Question 2.
fn length_in_range(bytes: usize) -> bool
    ensures { result ≡ (leb 1 bytes && leb bytes most_text_bytes) }
{
    (1..=MOST_TEXT_BYTES).contains(&bytes)
}

// Question 5, where the ladder may have no room in buffers of the sizes it asks for.
#[tactic(auto, unfolding(crate::specs::Parts::fits))]
fn sizes_in_range(sizes: Sizes) -> bool
    ensures { result ≡ fits sizes }
{
    sizes.rungs <= MOST_RECORDS && sizes.longest <= MOST_RUNG_WORDS && sizes.words <= MOST_WORDS
}

// The rest of the questions, of a ladder that was read, and its words and records into the lent buffers. Its rungs have been entered no
// times.
fn hand_over(vars: u32, new: Slices, times: &[u32], lent: &mut Buffers) -> Result<Counts, Refusal>
    requires { times.now ≡ replicate (length new.labels.now) 0 }
    ensures read { ReadDone (hand_over vars (read_in new.entry times.now) (buffers_in lent.old)) result
        (buffers_in lent.new) }
    ensures same { SameLoans lent.old lent.new }
{
    ladder::ladder_answer(vars, new, times)?;
    let counts = Counts {
        words: new.words.len(),
        rungs: new.labels.len(),
    };
    if !lent.has_room(counts.words, counts.rungs) {
        return Err(Refusal::Buffer);
    }
    lent.put(new);
    Ok(counts)
}

// Read.
pub fn read(vars: u32, text: &[u8], lent: &mut Buffers) -> Result<Counts, Refusal>
    ensures read { ReadDone (read_text vars text.now (buffers_in lent.old)) result (buffers_in lent.new) }
    ensures same { SameLoans lent.old lent.new }
{
    if !questions::vars_in_range(vars) {
        return Err(Refusal::Variables);
    }
    if !length_in_range(text.len()) {
        return Err(Refusal::TextLength);
    }
    let mut words = [0; MOST_WORDS];
    let mut labels = [0; MOST_RECORDS];
    let mut offsets = [0; MOST_RECORDS];
    let mut lengths = [0; MOST_RECORDS];
    // A rung that was read has been entered no times.
    let times = [0; MOST_RECORDS];
    let mut own = Buffers {
        words: &mut words,
        labels: &mut labels,
        offsets: &mut offsets,
        lengths: &mut lengths,
        times: &mut [],
    };
    let sizes = match text_lines::lines(text, &mut own) {
        Ok(sizes) => sizes,
        Err(stuck) => return Err(Refusal::Text { place: stuck.place }),
    };
    if !sizes_in_range(sizes) {
        return Err(Refusal::Sizes);
    }
    let read = Slices {
        words: &words,
        labels: &labels,
        offsets: &offsets,
        lengths: &lengths,
    };
    hand_over(
        vars,
        read.first(sizes.words, sizes.rungs),
        &times[..sizes.rungs],
        lent,
    )
}
