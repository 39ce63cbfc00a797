// The printed list. Each function writes its text from `at` on and gives the position after it; past the buffer's end nothing is
// written, so that the same functions count the bytes, over a buffer of none.
#![tactic(auto)]

ghost use Rattle.std.specs.Prelude.{◌*◌, ◌≤◌, ◌<◌, ◌≡◌, ◌∷◌, T, length};
ghost use Rattle.questions.specs.Bytes.{byte, decimal};
ghost use Rattle.rungs.specs.Words.{operands};
ghost use Rattle.rungs.specs.Records.{fields_of};
ghost use Rattle.list_definitions.specs.Questions.{list_in_range};
ghost use Rattle.list_definitions.specs.ListScan.{list_of};
ghost use Rattle.list_definitions.specs.Names.{name_of, most_op, name_bytes, names_in};
ghost use Rattle.list_definitions.specs.Listing.{label_line, ended, listing_text};
ghost use Rattle.printing.specs.Put.{Put};
ghost use Rattle.list_definitions.specs.Decoding.{Decodes};
ghost use Rattle.list_printing.specs.Parts.{operand_by, word_line, word_lines, RungReady};

use list_names::NAME_BYTES;
use list_ops::OperandSort;
use rungs::Slices;

// The name of an op, up to its filling.
fn put_name(out: &mut [u8], at: usize, names: &[u8], op: usize) -> usize
    requires { (at < 800000) × (1 ≤ op) × (op ≤ most_op) × (length names.now ≡ name_bytes * most_op) }
    ensures { Put out.old at (name_of (names_in names.now) op) result out.new }
{
    let from = (op - 1) * NAME_BYTES;
    let name = &names[from..from + NAME_BYTES];
    let letters = name
        .iter()
        .position(|letter| *letter == 0)
        .unwrap_or(NAME_BYTES);
    printing::put_text(out, at, &name[..letters])
}

// A space, a letter and a number.
fn put_index(out: &mut [u8], at: usize, letter: u8, number: usize) -> usize
    requires { (at < 700000) × (number < operands) }
    ensures { Put out.old at (byte " " ∷ letter ∷ decimal number) result out.new }
{
    let space = printing::put_byte(out, at, b' ');
    let sign = printing::put_byte(out, space, letter);
    printing::put_number(out, sign, number)
}

// A space, and the operand of an op with its letter; nothing where the op takes none.
fn put_operand(out: &mut [u8], at: usize, vars: u32, op: u32, operand: u32) -> usize
    requires { (at < 700000) × (operand < operands) }
    ensures { Put out.old at (operand_by vars op operand) result out.new }
{
    let variable = operand < vars;
    match list_ops::operand_sort(op) {
        Some(OperandSort::Table) if variable => put_index(out, at, b'v', operand as usize),
        Some(OperandSort::Table) => put_index(out, at, b't', (operand - vars) as usize),
        Some(OperandSort::Instruction) => put_index(out, at, b'@', operand as usize),
        Some(OperandSort::Timer) => put_index(out, at, b'd', operand as usize),
        Some(OperandSort::Nothing) => at,
        None => at,
    }
}

// The line of an instruction.
fn put_instruction(out: &mut [u8], at: usize, names: &[u8], vars: u32, word: u32) -> usize
    requires { (at < 600000) × Decodes word × (length names.now ≡ name_bytes * most_op) }
    ensures { Put out.old at (word_line (names_in names.now) vars word) result out.new }
{
    let op = word / rungs::OPERANDS;
    let operand = word % rungs::OPERANDS;
    let name = put_name(out, at, names, op as usize);
    let end = put_operand(out, name, vars, op, operand);
    printing::put_byte(out, end, b'\n')
}

// The line of a label.
fn put_label(out: &mut [u8], at: usize, label: u16) -> usize
    requires { at < 600000 }
    ensures { Put out.old at (ended (label_line label)) result out.new }
{
    let sign = printing::put_byte(out, at, b'L');
    let number = printing::put_number(out, sign, usize::from(label));
    let colon = printing::put_byte(out, number, b':');
    printing::put_byte(out, colon, b'\n')
}

// The lines of a rung's instructions.
fn put_rung(out: &mut [u8], at: usize, names: &[u8], vars: u32, words: &[u32]) -> usize
    requires { RungReady vars words.now at × (length names.now ≡ name_bytes * most_op) }
    ensures { Put out.old at (word_lines (names_in names.now) vars words.now) result out.new }
{
    let mut end = at;
    for word in words {
        end = put_instruction(out, end, names, vars, *word);
    }
    end
}

// The whole listing, in the names of a table.
pub fn put_list(names: &[u8], vars: u32, list: Slices, out: &mut [u8]) -> usize
    requires { (length names.now ≡ name_bytes * most_op)
        × T (list_in_range vars list.words.now
        (fields_of list.labels.now list.offsets.now list.lengths.now)) }
    ensures { Put out.old 0
        (listing_text (names_in names.now) vars (list_of list.entry.words.now
        (fields_of list.entry.labels.now list.entry.offsets.now list.entry.lengths.now)))
        result out.new }
{
    let mut end: usize = 0;
    let mut start: usize = 0;
    for (label, length) in list.labels.iter().zip(list.lengths) {
        end = put_label(out, end, *label);
        let next = start + *length as usize;
        let words = &list.words[start..next];
        end = put_rung(out, end, names, vars, words);
        start = next;
    }
    end
}
