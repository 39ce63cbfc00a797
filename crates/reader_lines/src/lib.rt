// One line of a list's text. Document 02, Req 05 and Req 06.
#![tactic(auto)]

ghost use Rattle.std.specs.Prelude.{◌<◌, ◌≤◌, ◌≡◌, Some, length, take, drop};
ghost use Rattle.questions.specs.Bytes.{same_bytes};
ghost use Rattle.questions.specs.Questions.{most_variables};
ghost use Rattle.list_definitions.specs.Instruction.{same_sort};
ghost use Rattle.list_definitions.specs.Names.{trimmed, name_bytes, names_in};
ghost use Rattle.list_ops.specs.Sorts.{sort_in};
ghost use Rattle.text_grammar.specs.Grammar.{most_number};
ghost use Rattle.reader_definitions.specs.Reader.{between, lettered, operand_from, instruction_from, label_from, opens_label};
ghost use Rattle.reader_lines.specs.Parts.{LettersRead, OpFound, LetterParsed, OperandParsed, LineParsed, LabelParsed};

use list_names::{MOST_OP, NAME_BYTES};
use list_ops::{Op, OperandSort};
use rungs::OPERANDS;
use table::SCRATCH_BYTES;
use text_grammar::Numeral;

// Scratch bytes are t0 to t31.
const SCRATCH: u32 = SCRATCH_BYTES as u32;

// An operand: its sort, its number, and the position after it.
#[derive(Clone, Copy)]
pub struct OperandAt {
    pub sort: OperandSort,
    pub number: u32,
    pub next: usize,
}

// An instruction word and the position after its line.
#[derive(Clone, Copy)]
pub struct LineAt {
    pub word: u32,
    pub next: usize,
}

// A label and the position after its line.
#[derive(Clone, Copy)]
pub struct LabelAt {
    pub label: u32,
    pub next: usize,
}

// The position after at most six capital letters.
fn letters(text: &[u8], at: usize) -> usize
    ensures { LettersRead text.now at result }
{
    let mut next = at;
    for _ in 0..NAME_BYTES {
        if !list_names::is_capital(rungs::at_or(text, next, 0)) {
            break;
        }
        next += 1;
    }
    next
}

// Whether a word is the name that stands in a table from a position on, which zeros may follow. It ends at the first byte that differs.
fn is_named(table: &[u8], from: usize, word: &[u8]) -> bool
    requires { from < 1000 }
    ensures { result ≡ same_bytes (trimmed (take name_bytes (drop from table.now))) word.now }
{
    for place in 0..NAME_BYTES {
        let byte = rungs::at_or(table, from + place, 0);
        if byte == 0 {
            return place == word.len();
        }
        if rungs::at_or(word, place, 0) != byte {
            return false;
        }
    }
    NAME_BYTES == word.len()
}

// The op whose name a word is.
fn op_named(table: &[u8], word: &[u8]) -> Option<Op>
    ensures { OpFound (names_in table.now) word.now result }
{
    for place in 0..MOST_OP {
        if is_named(table, NAME_BYTES * place, word) {
            return Op::of(place as u32 + 1);
        }
    }
    None
}

// The operand of a letter and a number.
fn lettered(letter: u8, numeral: Numeral, vars: u32) -> Option<OperandAt>
    requires { (vars ≤ most_variables) × (numeral.value ≤ most_number) }
    ensures { LetterParsed (lettered vars letter numeral.value) numeral.next result }
{
    let Numeral {
        value: number,
        next,
    } = numeral;
    let known = number < SCRATCH;
    match letter {
        b'v' if number < vars => Some(OperandAt {
            sort: OperandSort::Table,
            number,
            next,
        }),
        b't' if known => Some(OperandAt {
            sort: OperandSort::Table,
            number: vars + number,
            next,
        }),
        b'@' => Some(OperandAt {
            sort: OperandSort::Instruction,
            number,
            next,
        }),
        b'd' => Some(OperandAt {
            sort: OperandSort::Timer,
            number,
            next,
        }),
        _ => None,
    }
}

// After a name: a space, a letter and a number; or no operand.
fn operand(text: &[u8], at: usize, vars: u32) -> Option<OperandAt>
    requires { vars ≤ most_variables }
    ensures { OperandParsed (operand_from vars text.now at) text.now at result }
{
    let Some(letter_at) = text_grammar::after(text, at, b' ') else {
        return Some(OperandAt {
            sort: OperandSort::Nothing,
            number: 0,
            next: at,
        });
    };
    let letter = *text.get(letter_at)?;
    let numeral = text_grammar::number(text, letter_at + 1)?;
    lettered(letter, numeral, vars)
}

// Whether an op that takes operands of a sort takes one of another: only of its own.
#[tactic(auto, using(crate::proofs::Lines::same_case))]
fn takes(sort: OperandSort, given: OperandSort) -> bool
    ensures { result ≡ same_sort (sort_in (Some sort)) (sort_in (Some given)) }
{
    sort == given
}

// An instruction line, in the names of a table.
pub fn instruction(table: &[u8], text: &[u8], at: usize, vars: u32) -> Option<LineAt>
    requires { (vars ≤ most_variables) × (at ≤ length text.now) }
    ensures { LineParsed (instruction_from (names_in table.now) vars text.now at)
        text.now at result }
{
    let to = letters(text, at);
    let op = op_named(table, &text[at..to])?;
    let operand = operand(text, to, vars)?;
    let sort = list_ops::operand_sort(op.number())?;
    if !takes(sort, operand.sort) {
        return None;
    }
    let next = text_grammar::after(text, operand.next, b'\n')?;
    Some(LineAt {
        word: op.number() * OPERANDS + operand.number,
        next,
    })
}

// Whether a label line begins at a position.
pub fn opens_label(text: &[u8], at: usize) -> bool
    ensures { result ≡ opens_label text.now at }
{
    match text_grammar::after(text, at, b'L') {
        Some(number_at) => text_grammar::digit_at(text, number_at).is_some(),
        None => false,
    }
}

// A label line.
pub fn label(text: &[u8], at: usize) -> Option<LabelAt>
    ensures { LabelParsed (label_from text.now at) text.now at result }
{
    let number_at = text_grammar::after(text, at, b'L')?;
    let Numeral { value, next } = text_grammar::number(text, number_at)?;
    let end = text_grammar::after(text, next, b':')?;
    let next = text_grammar::after(text, end, b'\n')?;
    Some(LabelAt { label: value, next })
}
