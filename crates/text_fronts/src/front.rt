// Fronts: front, term and factor call each other, with at most `depth` brackets open below. Document 01, "Text".
ghost use Rattle.std.specs.Prelude.{◌≤◌};
ghost use Rattle.text_grammar.specs.Reader.{front_of, term_of, factor_of};
ghost use Rattle.ladder_definitions.specs.Kept.{front_words};
ghost use Rattle.text_fronts.specs.Parts.{PartRead};
ghost use Rattle.text_grammar.specs.Grammar.{most_brackets};

use crate::part::{Parsed, Stuck};
use crate::{part, words};
use ladder_kinds::Kind;
use rungs::OPERANDS;

// The words of a front-and and a front-or.
const FRONT_AND: u32 = Kind::FrontAnd as u32 * OPERANDS;

const FRONT_OR: u32 = Kind::FrontOr as u32 * OPERANDS;

#[cycle(factor_front_term)]
pub fn factor(
    text: &[u8],
    at: usize,
    depth: usize,
    rung: &mut [u32],
    put: usize,
) -> Result<Parsed, Stuck>
    requires { (depth ≤ most_brackets) × (put ≤ at) }
    ensures { PartRead front_words (factor_of depth text.now at) text.now at result put
        rung.old rung.new }
{
    match rungs::at_or(text, at, 0) {
        b'c' => part::leaf(text, at, Kind::Contact as u32, rung, put),
        b'n' => part::leaf(text, at, Kind::NegatedContact as u32, rung, put),
        b'(' if 0 < depth => {
            let inner = front(text, at + 1, depth - 1, rung, put)?;
            let next = part::after(text, inner.next, b')')?;
            Ok(Parsed { next, ..inner })
        }
        _ => Err(Stuck { place: at }),
    }
}

// Factors joined by "&", grouped to the left.
#[cycle(factor_front_term)]
fn term(text: &[u8], at: usize, depth: usize, rung: &mut [u32], put: usize) -> Result<Parsed, Stuck>
    requires { (depth ≤ most_brackets) × (put ≤ at) }
    ensures { PartRead front_words (term_of depth text.now at) text.now at result put
        rung.old rung.new }
{
    let Parsed {
        mut next,
        mut count,
    } = factor(text, at, depth, rung, put)?;
    // Up to another byte, so no count by a `for`.
    while rungs::at_or(text, next, 0) == b'&' {
        let more = factor(text, next + 1, depth, rung, put + count)?;
        words::insert(rung, put, count + more.count, FRONT_AND);
        next = more.next;
        count += more.count + 1;
    }
    Ok(Parsed { next, count })
}

// Terms joined by "|", grouped to the left. Its code is that of `term` with another part, byte and word. It stands here again because
// document 01 has front, term and factor call each other.
#[cycle(factor_front_term)]
pub fn front(
    text: &[u8],
    at: usize,
    depth: usize,
    rung: &mut [u32],
    put: usize,
) -> Result<Parsed, Stuck>
    requires { (depth ≤ most_brackets) × (put ≤ at) }
    ensures { PartRead front_words (front_of depth text.now at) text.now at result put
        rung.old rung.new }
{
    let Parsed {
        mut next,
        mut count,
    } = term(text, at, depth, rung, put)?;
    // Up to another byte, so no count by a `for`.
    while rungs::at_or(text, next, 0) == b'|' {
        let more = term(text, next + 1, depth, rung, put + count)?;
        words::insert(rung, put, count + more.count, FRONT_OR);
        next = more.next;
        count += more.count + 1;
    }
    Ok(Parsed { next, count })
}
