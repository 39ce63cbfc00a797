// The ops, the sort of the operand that an op takes, and the limit of a list. Document 01, "What a list does"; document 02, Req 01
// and Req 06.
#![tactic(auto)]

ghost use Rattle.std.specs.Prelude.{◌≡◌};
ghost use Rattle.list_definitions.specs.Instruction.{operand_sort};
ghost use Rattle.list_ops.specs.Ops.{op_number, numbered};
ghost use Rattle.list_ops.specs.Sorts.{sort_in, within};

// At most 16,384 instructions.
pub const MOST_INSTRUCTIONS: usize = 16384;

// The ops, each with its number.
#[derive(Clone, Copy, PartialEq, Eq)]
pub enum Op {
    Ld = 1,
    Ldn,
    St,
    Stn,
    And,
    Andn,
    Or,
    Orn,
    Xor,
    Xorn,
    Not,
    Jmp,
    Jmpc,
    Jmpcn,
    S,
    R,
    Ton,
}

impl Op {
    // The op that has a number. Inlined before all else, so that a match on the op is one table of arms on the number: else the number is
    // tested, and then the op again.
    #[inline(always)]
    #[tactic(auto, unfolding(crate::specs::Ops::numbered, crate::specs::Ops::cases))]
    pub fn of(number: u32) -> Option<Op>
        ensures { result ≡ numbered number }
    {
        let op = match number {
            1 => Op::Ld,
            2 => Op::Ldn,
            3 => Op::St,
            4 => Op::Stn,
            5 => Op::And,
            6 => Op::Andn,
            7 => Op::Or,
            8 => Op::Orn,
            9 => Op::Xor,
            10 => Op::Xorn,
            11 => Op::Not,
            12 => Op::Jmp,
            13 => Op::Jmpc,
            14 => Op::Jmpcn,
            15 => Op::S,
            16 => Op::R,
            17 => Op::Ton,
            _ => return None,
        };
        Some(op)
    }

    #[tactic(auto, unfolding(crate::specs::Ops::op_number))]
    pub fn number(self) -> u32
        ensures { result ≡ op_number self }
    {
        self as u32
    }
}

// A table index; nothing; an instruction index; or a timer's number.
#[derive(Clone, Copy, PartialEq, Eq)]
pub enum OperandSort {
    Table,
    Nothing,
    Instruction,
    Timer,
}

// Whether a number is that of an op from one to another. Both bounds in one test, and not `contains`: with a test for each bound a list
// scan takes 2 % more instructions.
#[tactic(auto, unfolding(crate::specs::Sorts::within))]
fn is_within(first: Op, op: u32, last: Op) -> bool
    ensures { result ≡ within (op_number first) (op_number last) op }
{
    (first.number() <= op) & (op <= last.number())
}

// By ranges in the order of the ops, and no match of `Op::of`: inlined, it leaves the tests of question 10 as they would be written there;
// with ops joined in a match a list scan takes 6 % more instructions.
pub fn operand_sort(op: u32) -> Option<OperandSort>
    ensures { sort_in result ≡ operand_sort op }
{
    if is_within(Op::Ld, op, Op::Xorn) {
        Some(OperandSort::Table)
    } else if op == Op::Not.number() {
        Some(OperandSort::Nothing)
    } else if is_within(Op::Jmp, op, Op::Jmpcn) {
        Some(OperandSort::Instruction)
    } else if is_within(Op::S, op, Op::R) {
        Some(OperandSort::Table)
    } else if op == Op::Ton.number() {
        Some(OperandSort::Timer)
    } else {
        None
    }
}
