// A part of the text that is read, with the words that it makes. Document 01, "Text". Each reader reads from `at` on, and puts the
// words into a rung's buffer from `put` on. A rung that is too long for the buffer is read and counted all the same.
ghost use Rattle.std.specs.Prelude.{◌<◌, length};
ghost use Rattle.rungs.specs.Words.{operands};
ghost use Rattle.text_fronts.specs.Parts.{one_word, leaf_of, PartRead, ByteRead};

use rungs::OPERANDS;

// The position after the part, and how many words it makes.
#[derive(Clone, Copy)]
pub struct Parsed {
    pub next: usize,
    pub count: usize,
}

// The place where reading is stuck.
#[derive(Clone, Copy)]
pub struct Stuck {
    pub place: usize,
}

// The position after a byte that has to stand at a position.
pub fn after(text: &[u8], at: usize, byte: u8) -> Result<usize, Stuck>
    requires { 0 < byte }
    ensures { ByteRead text.now at byte result }
{
    text_grammar::after(text, at, byte).ok_or(Stuck { place: at })
}

// A contact or an output, by its kind's number: its letter stands at `at`, its number after it.
pub fn leaf(
    text: &[u8],
    at: usize,
    kind: u32,
    rung: &mut [u32],
    put: usize,
) -> Result<Parsed, Stuck>
    requires { (at < length text.now) × (kind < operands) }
    ensures { PartRead one_word (leaf_of kind text.now at) text.now at result put
        rung.old rung.new }
{
    let Some(number) = text_grammar::number(text, at + 1) else {
        return Err(Stuck { place: at + 1 });
    };
    rungs::put(rung, put, kind * OPERANDS + number.value);
    Ok(Parsed {
        next: number.next,
        count: 1,
    })
}
