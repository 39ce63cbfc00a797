// Lines: one rung each, kept in words and records. Document 01, "Text".
#![tactic(auto)]

ghost use Rattle.std.specs.Prelude.{ℕ, ◌+◌, ◌<◌, ◌≤◌, ◌^◌, ◌≡◌, length, take};
ghost use Rattle.text_grammar.specs.Reader.{line_of, text_of};
ghost use Rattle.ladder_definitions.specs.Kept.{rung_words};
ghost use Rattle.rungs.specs.Buffers.{columns_of, buffers_in, SameLoans};
ghost use Rattle.text_lines.specs.Parts.{rung_of, LineRead, with_rung, put_rung, LineIsKept, LinesAreKept};
ghost use Rattle.text_fronts.specs.Parts.{PartRead};

use ladder_kinds::MOST_RUNG_WORDS;
use rungs::Buffers;
use text_fronts::part::Parsed;
pub use text_fronts::part::Stuck;
use text_fronts::{front, part};

// The most brackets of both sorts that are open together.
const MOST_BRACKETS: usize = 15;

// A line's label, the position after it, and how many words its rung makes.
#[derive(Clone, Copy)]
pub struct LineParsed {
    pub label: u16,
    pub next: usize,
    pub count: usize,
}

// What the rungs that were read take: words, records, and words of the longest.
#[derive(Clone, Copy)]
pub struct Sizes {
    pub words: usize,
    pub rungs: usize,
    pub longest: usize,
}

// The position after a line that was kept, and what all rungs so far take.
#[derive(Clone, Copy)]
pub struct LineKept {
    pub next: usize,
    pub sizes: Sizes,
}

impl Sizes {
    // With one rung more, of so many words.
    #[tactic(auto, unfolding(crate::specs::Parts::with_rung))]
    fn with_rung(self, count: usize) -> Sizes
        requires { (self.words + count < 2 ^ 64) × (self.rungs + 1 < 2 ^ 64) }
        ensures { result ≡ with_rung self count }
    {
        Sizes {
            words: self.words + count,
            rungs: self.rungs + 1,
            longest: rungs::larger(self.longest, count),
        }
    }
}

// A front, ">", a rear and LF.
fn rung_words(text: &[u8], at: usize, rung: &mut [u32]) -> Result<Parsed, Stuck>
    ensures { (label : ℕ) → PartRead rung_words (rung_of label text.now at) text.now at result 0
        rung.old rung.new }
{
    let front = front::front(text, at, MOST_BRACKETS, rung, 0)?;
    let from = part::after(text, front.next, b'>')?;
    let rear = text_rears::rear(text, from, MOST_BRACKETS, rung, front.count)?;
    let next = part::after(text, rear.next, b'\n')?;
    Ok(Parsed {
        next,
        count: front.count + rear.count,
    })
}

// A number, ":" and a rung.
fn line(text: &[u8], at: usize, rung: &mut [u32]) -> Result<LineParsed, Stuck>
    ensures { LineRead (line_of text.now at) text.now at result rung.old rung.new }
{
    let Some(label) = text_grammar::number(text, at) else {
        return Err(Stuck { place: at });
    };
    let from = part::after(text, label.next, b':')?;
    let Parsed { next, count } = rung_words(text, from, rung)?;
    Ok(LineParsed {
        label: label.value as u16,
        next,
        count,
    })
}

// A rung's words and record after those before it. Of a rung that is too long the words that were written are kept.
fn keep(rung: &[u32], line: LineParsed, sizes: Sizes, buffers: &mut Buffers)
    requires { (sizes.words + line.count < 2 ^ 32) × (sizes.rungs < 2 ^ 32) }
    ensures kept { columns_of (buffers_in buffers.new)
        ≡ put_rung (columns_of (buffers_in buffers.old)) sizes line.label line.count (take line.count rung.now) }
    ensures times { buffers.new.times.now ≡ buffers.old.times.now }
    ensures same { SameLoans buffers.old buffers.new }
{
    let words = &rung[..line.count.min(rung.len())];
    rungs::copy_into(words, buffers.words, sizes.words);
    rungs::put(buffers.labels, sizes.rungs, line.label);
    rungs::put(buffers.offsets, sizes.rungs, sizes.words as u32);
    rungs::put(buffers.lengths, sizes.rungs, line.count as u32);
}

// Reads one line and keeps its rung.
fn keep_line(text: &[u8], at: usize, sizes: Sizes, buffers: &mut Buffers) -> Result<LineKept, Stuck>
    requires { (length text.now < 2 ^ 32) × (sizes.words ≤ at) × (sizes.rungs ≤ at) }
    ensures kept { LineIsKept (line_of text.now at) text.now at sizes result
        (columns_of (buffers_in buffers.old)) (columns_of (buffers_in buffers.new)) }
    ensures times { buffers.new.times.now ≡ buffers.old.times.now }
    ensures same { SameLoans buffers.old buffers.new }
{
    let mut rung = [0; MOST_RUNG_WORDS];
    let line = line(text, at, &mut rung)?;
    keep(&rung, line, sizes, buffers);
    Ok(LineKept {
        next: line.next,
        sizes: sizes.with_rung(line.count),
    })
}

// Reads all lines and keeps their rungs, as far as there is room; what they take is counted all the same.
pub fn lines(text: &[u8], buffers: &mut Buffers) -> Result<Sizes, Stuck>
    requires { length text.now < 2 ^ 32 }
    ensures kept { LinesAreKept (text_of text.now) result
        (columns_of (buffers_in buffers.old)) (columns_of (buffers_in buffers.new)) }
    ensures times { buffers.new.times.now ≡ buffers.old.times.now }
    ensures same { SameLoans buffers.old buffers.new }
{
    let mut next = 0;
    let mut sizes = Sizes {
        words: 0,
        rungs: 0,
        longest: 0,
    };
    // Up to the text's end, so no count by a `for`.
    loop {
        let kept = keep_line(text, next, sizes, buffers)?;
        let whole = kept.next == text.len();
        if whole {
            return Ok(kept.sizes);
        }
        next = kept.next;
        sizes = kept.sizes;
    }
}
