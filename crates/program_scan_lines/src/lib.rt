// The first lines of the input of ladder-scan after V: the rung watchdog, and the variables line, which becomes a table. README,
// "ladder-scan".
#![tactic(auto)]

ghost use Rattle.std.specs.Prelude.{◌≡◌};
ghost use Rattle.program_definitions.specs.Lines.{no_watchdog};
ghost use Rattle.program_numbers.specs.Parts.{number_by};
ghost use Rattle.program_scan_lines.specs.Parts.{next_variable, next_table, table_bytes, TableTaken};

use program_numbers::FirstLine;
use questions::{MOST_RUNG_WATCHDOG, MOST_VARIABLES};
use table::SCRATCH_BYTES;

// V variables, 1 to 1,024, and 32 scratch bytes.
pub const MOST_TABLE: usize = MOST_VARIABLES as usize + SCRATCH_BYTES;

// A watchdog that is no number.
const NO_WATCHDOG: u32 = MOST_RUNG_WATCHDOG + 1;

// The watchdog: the number that the line is, or 65,536.
pub fn watchdog(line: FirstLine) -> u32
    ensures { result ≡ number_by no_watchdog line }
{
    line.number_or(NO_WATCHDOG)
}

// How many bytes of the variables line have been taken, with one byte more: none where one of them is no zero or one, or they are more
// than V. A zero or a one goes into the table.
#[tactic(auto, unfolding(crate::specs::Parts::next_variable, crate::specs::Parts::next_table, crate::specs::Parts::taken, program_definitions::specs::Lines::is_binary_digit))]
pub fn next_variable(variables: Option<u32>, vars: u32, byte: u8, table: &mut [u8]) -> Option<u32>
    ensures { (result ≡ next_variable variables vars byte)
        × (table.new ≡ next_table variables vars byte table.old) }
{
    let count = variables?;
    if vars <= count || !matches!(byte, b'0' | b'1') {
        return None;
    }
    rungs::put(table, count as usize, byte - b'0');
    Some(count + 1)
}

// How many bytes the table has: V and 32 if the line was V zeros and ones, and else none.
#[tactic(auto, unfolding(crate::specs::Parts::table_bytes))]
pub fn table_bytes(variables: Option<u32>, vars: u32) -> usize
    ensures { result ≡ table_bytes variables vars }
{
    let whole = variables == Some(vars);
    if whole && vars <= MOST_VARIABLES {
        vars as usize + SCRATCH_BYTES
    } else {
        0
    }
}

// How many zeros and ones the variables line is, if it is nothing else, and where it ends.
#[derive(Clone, Copy)]
pub struct VariablesTaken {
    pub variables: Option<u32>,
    pub at: usize,
}

// The variables line from a position on; its zeros and ones go into the table.
pub fn take_variables(input: &[u8], from: usize, vars: u32, table: &mut [u8]) -> VariablesTaken
    ensures { TableTaken input.now from vars table.old result table.new }
{
    let mut variables = Some(0);
    for i in from..input.len() {
        if input[i] == b'\n' {
            return VariablesTaken {
                variables,
                at: i + 1,
            };
        }
        variables = next_variable(variables, vars, input[i], table);
    }
    VariablesTaken {
        variables,
        at: input.len(),
    }
}

// As many bytes are kept after the variables line.
pub const MOST_REST: usize = 131072;
