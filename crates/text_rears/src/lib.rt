// Rears: rear, branch and rear_end call each other, with at most `depth` brackets open below. Document 01, "Text"; document 02, Req 01
// and Req 06.
#![tactic(auto)]

ghost use Rattle.std.specs.Prelude.{◌≡◌, ◌<◌, ◌≤◌, option_map};
ghost use Rattle.text_grammar.specs.Reader.{rear_of, branch_of, end_of, opens_factor};
ghost use Rattle.ladder_definitions.specs.Kept.{rear_words};
ghost use Rattle.ladder_kinds.specs.Kinds.{kind_number};
ghost use Rattle.text_fronts.specs.Parts.{PartRead};
ghost use Rattle.text_grammar.specs.Grammar.{most_brackets};
ghost use Rattle.text_rears.specs.Letters.{letter_kind};

use ladder_kinds::Kind;
use rungs::OPERANDS;
use text_fronts::part::{Parsed, Stuck};
use text_fronts::{front, part, words};

// The words of a rear-and and a rear-or.
const REAR_AND: u32 = Kind::RearAnd as u32 * OPERANDS;

const REAR_OR: u32 = Kind::RearOr as u32 * OPERANDS;

// Whether a factor begins with a byte.
#[tactic(auto, unfolding(text_grammar::specs::Reader::opens_factor))]
fn opens(byte: u8) -> bool
    ensures { result ≡ opens_factor byte }
{
    matches!(byte, b'c' | b'n' | b'(')
}

// The kind of the output that a letter begins.
#[tactic(auto, unfolding(crate::specs::Letters::letter_kind, text_grammar::specs::Reader::output_at, ladder_definitions::specs::Kept::output_kind, ladder_kinds::specs::Kinds::kind_number))]
fn output_kind(letter: u8) -> Option<Kind>
    ensures { option_map kind_number result ≡ letter_kind letter }
{
    let kind = match letter {
        b'o' => Kind::Coil,
        b'q' => Kind::NegatedCoil,
        b'j' => Kind::Jump,
        b'k' => Kind::NegatedJump,
        b's' => Kind::SetCoil,
        b'r' => Kind::ResetCoil,
        b't' => Kind::Timer,
        _ => return None,
    };
    Some(kind)
}

// The end of a branch: an output, or a rear in brackets.
#[cycle(branch_rear_rear_end)]
fn rear_end(
    text: &[u8],
    at: usize,
    depth: usize,
    rung: &mut [u32],
    put: usize,
) -> Result<Parsed, Stuck>
    requires { (depth ≤ most_brackets) × (put < at) }
    ensures { PartRead rear_words (end_of depth text.now at) text.now at result put
        rung.old rung.new }
{
    let byte = rungs::at_or(text, at, 0);
    if let Some(kind) = output_kind(byte) {
        return part::leaf(text, at, kind.number(), rung, put);
    }
    if byte != b'[' || depth == 0 {
        return Err(Stuck { place: at });
    }
    let inner = rear(text, at + 1, depth - 1, rung, put)?;
    let next = part::after(text, inner.next, b']')?;
    Ok(Parsed { next, ..inner })
}

// Factors, each followed by "&", then an end; grouped to the right.
#[cycle(branch_rear_rear_end)]
fn branch(
    text: &[u8],
    at: usize,
    depth: usize,
    rung: &mut [u32],
    put: usize,
) -> Result<Parsed, Stuck>
    requires { (depth ≤ most_brackets) × (put < at) }
    ensures { PartRead rear_words (branch_of depth text.now at) text.now at result put
        rung.old rung.new }
{
    let mut next = at;
    let mut count = 0;
    // Up to a byte that begins no factor, so no count by a `for`.
    while opens(rungs::at_or(text, next, 0)) {
        rungs::put(rung, put + count, REAR_AND);
        let factor = front::factor(text, next, depth, rung, put + count + 1)?;
        next = part::after(text, factor.next, b'&')?;
        count += factor.count + 1;
    }
    let end = rear_end(text, next, depth, rung, put + count)?;
    Ok(Parsed {
        next: end.next,
        count: count + end.count,
    })
}

// Branches joined by "|", grouped to the right.
#[cycle(branch_rear_rear_end)]
pub fn rear(
    text: &[u8],
    at: usize,
    depth: usize,
    rung: &mut [u32],
    put: usize,
) -> Result<Parsed, Stuck>
    requires { (depth ≤ most_brackets) × (put < at) }
    ensures { PartRead rear_words (rear_of depth text.now at) text.now at result put
        rung.old rung.new }
{
    let mut next = at;
    let mut count = 0;
    // Up to another byte than "|", so no count by a `for`.
    loop {
        let part = branch(text, next, depth, rung, put + count)?;
        if rungs::at_or(text, part.next, 0) != b'|' {
            return Ok(Parsed {
                next: part.next,
                count: count + part.count,
            });
        }
        words::insert(rung, put + count, part.count, REAR_OR);
        next = part.next + 1;
        count += part.count + 1;
    }
}
