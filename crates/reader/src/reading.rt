// The lines of a list's text, kept as words and records. Document 02, Req 05.
ghost use Rattle.std.specs.Prelude.{suc, ◌+◌, ◌<◌, ◌≤◌, ◌^◌, ◌≡◌, length, min};
ghost use Rattle.questions.specs.Questions.{most_variables};
ghost use Rattle.rungs.specs.Buffers.{columns_of, buffers_in, SameLoans};
ghost use Rattle.text_grammar.specs.Grammar.{most_number};
ghost use Rattle.list_definitions.specs.Names.{names_in};
ghost use Rattle.reader_definitions.specs.Reader.{code_from, rung_from, list_text_of};
ghost use Rattle.reader.specs.Parts.{CodeParsed, with_rung, RungIsKept, RungsAreKept};

use rungs::Buffers;
use text_grammar::MOST_NUMBER;

// The position after some instruction lines, and how many they are.
#[derive(Clone, Copy)]
pub struct CodeAt {
    pub next: usize,
    pub count: usize,
}

// What the rungs that were read take: instructions, records, and instructions of the longest.
#[derive(Clone, Copy)]
pub struct Sizes {
    pub instructions: usize,
    pub rungs: usize,
    pub longest: usize,
}

// The position after a rung that was kept, and what all rungs so far take.
#[derive(Clone, Copy)]
pub struct RungAt {
    pub next: usize,
    pub sizes: Sizes,
}

impl Sizes {
    // With one rung more, of so many instructions.
    #[tactic(auto, unfolding(crate::specs::Parts::with_rung))]
    fn with_rung(self, count: usize) -> Sizes
        requires { (self.instructions + count < 2 ^ 64) × (self.rungs + 1 < 2 ^ 64) }
        ensures { result ≡ with_rung self count }
    {
        Sizes {
            instructions: self.instructions + count,
            rungs: self.rungs + 1,
            longest: rungs::larger(self.longest, count),
        }
    }
}

// Instruction lines up to a label line or the text's end; their words from `put` on, as far as there is room.
fn code(
    table: &[u8],
    text: &[u8],
    at: usize,
    vars: u32,
    words: &mut [u32],
    put: usize,
) -> Option<CodeAt>
    requires { (vars ≤ most_variables) × (at ≤ length text.now) × (put ≤ at) }
    ensures { CodeParsed (code_from (names_in table.now) vars text.now (suc (length text.now)) at)
        text.now at result put words.old words.new }
{
    let mut next = at;
    let mut count = 0;
    // Up to a line of another form, so no count by a `for`.
    while !reader_lines::opens_label(text, next) && next != text.len() {
        let line = reader_lines::instruction(table, text, next, vars)?;
        rungs::put(words, put + count, line.word);
        count += 1;
        next = line.next;
    }
    Some(CodeAt { next, count })
}

// A number of 16 bits as it is, a larger one as the largest of these; no list that is accepted has a larger one.
fn narrow(n: usize) -> u32
    ensures { result ≡ min n most_number }
{
    n.min(MOST_NUMBER as usize) as u32
}

// A label line and its instruction lines, kept after the rungs before.
fn rung(
    table: &[u8],
    text: &[u8],
    at: usize,
    vars: u32,
    sizes: Sizes,
    buffers: &mut Buffers,
) -> Option<RungAt>
    requires { (vars ≤ most_variables) × (sizes.instructions ≤ at) × (sizes.rungs ≤ at) }
    ensures kept { RungIsKept (rung_from (names_in table.now) vars text.now at) text.now at sizes result
        (columns_of (buffers_in buffers.old)) (columns_of (buffers_in buffers.new)) }
    ensures same { SameLoans buffers.old buffers.new }
{
    let label = reader_lines::label(text, at)?;
    let from = sizes.instructions;
    let code = code(table, text, label.next, vars, buffers.words, from)?;
    rungs::put(buffers.labels, sizes.rungs, label.label as u16);
    rungs::put(buffers.offsets, sizes.rungs, narrow(from));
    rungs::put(buffers.lengths, sizes.rungs, narrow(code.count));
    Some(RungAt {
        next: code.next,
        sizes: sizes.with_rung(code.count),
    })
}

// All rungs, kept as far as there is room; what they take is counted all the same.
pub fn rungs_of(table: &[u8], text: &[u8], vars: u32, buffers: &mut Buffers) -> Option<Sizes>
    requires { vars ≤ most_variables }
    ensures kept { RungsAreKept (list_text_of (names_in table.now) vars text.now) result
        (columns_of (buffers_in buffers.old)) (columns_of (buffers_in buffers.new)) }
    ensures same { SameLoans buffers.old buffers.new }
{
    let mut next = 0;
    let mut sizes = Sizes {
        instructions: 0,
        rungs: 0,
        longest: 0,
    };
    // Up to the text's end, so no count by a `for`.
    loop {
        let kept = rung(table, text, next, vars, sizes, buffers)?;
        if kept.next == text.len() {
            return Some(kept.sizes);
        }
        next = kept.next;
        sizes = kept.sizes;
    }
}
