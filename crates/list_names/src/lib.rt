// Name tables: question 14, and the fixed table. Document 02, Req 05; document 01, "Listing".
#![tactic(auto)]

ghost use Rattle.std.specs.Prelude.{◌+◌, ◌-◌, ◌*◌, ◌≤◌, ◌<◌, ◌≡◌, [], length, get_or, take, drop};
ghost use Rattle.questions.specs.Bytes.{same_bytes};
ghost use Rattle.questions.specs.Tests.{all, different};
ghost use Rattle.printing.specs.Put.{Put};
ghost use Rattle.list_definitions.specs.Names.{fixed_names, most_op, name_bytes, names_from, names_in, is_capital, is_name, is_name_table};
ghost use Rattle.list_names.specs.Parts.{capitals_before_zeros, FixedNamesPut};

// "Six bytes an op", seventeen of them.
pub const NAME_BYTES: usize = 6;

pub const MOST_OP: usize = 17;

pub const TABLE_BYTES: usize = NAME_BYTES * MOST_OP;

// Six bytes a name, filled with zeros, by op from 1. Document 01 asks for a constant table of byte arrays that is indexed by op.
const NAMES: [[u8; NAME_BYTES]; MOST_OP] = [
    *b"LD\0\0\0\0",
    *b"LDN\0\0\0",
    *b"ST\0\0\0\0",
    *b"STN\0\0\0",
    *b"AND\0\0\0",
    *b"ANDN\0\0",
    *b"OR\0\0\0\0",
    *b"ORN\0\0\0",
    *b"XOR\0\0\0",
    *b"XORN\0\0",
    *b"NOT\0\0\0",
    *b"JMP\0\0\0",
    *b"JMPC\0\0",
    *b"JMPCN\0",
    *b"S\0\0\0\0\0",
    *b"R\0\0\0\0\0",
    *b"TON\0\0\0",
];

#[tactic(auto, unfolding(list_definitions::specs::Names::is_capital))]
pub fn is_capital(b: u8) -> bool
    ensures { result ≡ is_capital b }
{
    b.is_ascii_uppercase()
}

// Capitals, at least one, and after them zeros.
fn capitals_before_zeros(letters: &[u8], filling: &[u8]) -> bool
    ensures { result ≡ capitals_before_zeros letters.now filling.now }
{
    let some_letter = !letters.is_empty();
    let capitals = letters.iter().all(|b| is_capital(*b));
    let zeros = filling.iter().all(|b| *b == 0);
    some_letter && capitals && zeros
}

fn is_name(name: &[u8]) -> bool
    ensures { result ≡ is_name name.now }
{
    let end = name.iter().position(|b| *b == 0).unwrap_or(name.len());
    let (letters, filling) = name.split_at(end);
    capitals_before_zeros(letters, filling)
}

// Whether every six bytes are a name.
fn all_names(table: &[u8]) -> bool
    requires { length table.now ≡ name_bytes * most_op }
    ensures { result ≡ all is_name (names_in table.now) }
{
    table.chunks_exact(NAME_BYTES).all(is_name)
}

// Whether no name repeats an earlier one. A loop over what is left: a turn asks all names after its own, which a `for` does not hand out.
fn all_different(table: &[u8]) -> bool
    requires { length table.now ≡ name_bytes * most_op }
    ensures { result ≡ different same_bytes (names_in table.now) }
{
    let mut left = table;
    while !left.is_empty() {
        let (name, later) = left.split_at(NAME_BYTES);
        let repeated = !later.chunks_exact(NAME_BYTES).all(|other| other != name);
        if repeated {
            return false;
        }
        left = later;
    }
    true
}

// Question 14, of a table of any length.
#[tactic(auto, unfolding(list_definitions::specs::Names::is_name_table))]
pub fn is_name_table(table: &[u8]) -> bool
    ensures { result ≡ is_name_table table.now }
{
    table.len() == TABLE_BYTES && all_names(table) && all_different(table)
}

// The fixed name of an op, with its filling, from `at` on; and the position after it.
fn put_fixed_name(table: &mut [u8], at: usize, op: usize) -> usize
    requires { (at < 1000) × (1 ≤ op) × (op ≤ length fixed_names) }
    ensures { Put table.old at (get_or fixed_names (op - 1) []) result table.new }
{
    printing::put_text(table, at, &NAMES[op - 1])
}

// The fixed table from a buffer's start, name by op.
pub fn put_fixed_names(table: &mut [u8])
    ensures { FixedNamesPut table.old table.new }
{
    let mut end: usize = 0;
    for op in 1..=MOST_OP {
        end = put_fixed_name(table, end, op);
    }
}
