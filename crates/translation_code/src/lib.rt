// The instructions of a rung's parts, along the prefix order of its kept words: F and R of document 01, "Translation". Each function
// puts its part's instructions into a buffer from `put` on; past the buffer's end nothing is written, so that the same functions
// count, over a buffer of none. `depth` numbers the next free scratch byte.
#![tactic(auto)]

ghost use Rattle.std.specs.Prelude.{◌≡◌, ◌+◌, ◌-◌, ◌≤◌, ◌<◌, ◌^◌, length, set};
ghost use Rattle.questions.specs.Questions.{most_variables};
ghost use Rattle.rungs.specs.Words.{operands, word};
ghost use Rattle.ladder_definitions.specs.Questions.{most_words};
ghost use Rattle.list_ops.specs.Ops.{op_number};
ghost use Rattle.translation_definitions.specs.Translate.{code_bound};
ghost use Rattle.translation_code.specs.Parts.{OnePut, FrontPut, JoinPut, OutputOp, OutputInstruction, RearPut, RungPut, start_in};

use ladder_kinds::Kind;
use list_ops::Op;
use rungs::OPERANDS;

// The position after a part's words, and after its instructions.
#[derive(Clone, Copy)]
pub struct Positions {
    pub next: usize,
    pub put: usize,
}

// The word of an instruction.
#[tactic(auto, using(crate::proofs::Outputs::op_few))]
fn instruction(op: Op, operand: u32) -> u32
    requires { operand < operands }
    ensures { result ≡ word (op_number op) operand }
{
    op.number() * OPERANDS + operand
}

// One instruction for the word at a position.
fn put_one(code: &mut [u32], put: usize, at: usize, op: Op, operand: u32) -> Positions
    requires { (operand < operands) × (at < 2 ^ 32) × (put < 2 ^ 32) }
    ensures { OnePut at put (op_number op) operand result code.old code.new }
{
    rungs::put(code, put, instruction(op, operand));
    Positions {
        next: at + 1,
        put: put + 1,
    }
}

// F: the front whose words begin at a position.
#[cycle(front_code_join_code)]
fn front_code(
    vars: u32,
    words: &[u32],
    at: usize,
    depth: u32,
    code: &mut [u32],
    put: usize,
) -> Positions
    requires { (vars ≤ most_variables) × (length words.now ≤ most_words) × (depth + (length words.now - at) ≤ most_words)
        × (put + code_bound (length words.now - at) < 2 ^ 31) }
    ensures { FrontPut vars words.now at depth put result code.old code.new }
{
    let word = rungs::at_or(words, at, 0);
    let operand = word % OPERANDS;
    let Some(kind) = Kind::of(word / OPERANDS) else {
        return Positions { next: at, put };
    };
    match kind {
        Kind::Contact => put_one(code, put, at, Op::Ld, operand),
        Kind::NegatedContact => put_one(code, put, at, Op::Ldn, operand),
        Kind::FrontAnd => {
            let first = front_code(vars, words, at + 1, depth, code, put);
            let Positions { next, put } = first;
            join_code(vars, words, next, Op::And, Op::Andn, depth, code, put)
        }
        Kind::FrontOr => {
            let first = front_code(vars, words, at + 1, depth, code, put);
            let Positions { next, put } = first;
            join_code(vars, words, next, Op::Or, Op::Orn, depth, code, put)
        }
        _ => Positions { next: at, put },
    }
}

// A front joined by AND or OR to what stands in the accumulator: in short if it is a contact, and else through td.
#[cycle(front_code_join_code)]
fn join_code(
    vars: u32,
    words: &[u32],
    at: usize,
    op: Op,
    negated: Op,
    depth: u32,
    code: &mut [u32],
    put: usize,
) -> Positions
    requires { (vars ≤ most_variables) × (length words.now ≤ most_words) × (depth + 1 + (length words.now - at) ≤ most_words)
        × (put + code_bound (length words.now - at) + 2 < 2 ^ 31) }
    ensures { JoinPut vars words.now at (op_number op) (op_number negated) depth put result code.old code.new }
{
    let word = rungs::at_or(words, at, 0);
    let operand = word % OPERANDS;
    let Some(kind) = Kind::of(word / OPERANDS) else {
        return Positions { next: at, put };
    };
    match kind {
        Kind::Contact => put_one(code, put, at, op, operand),
        Kind::NegatedContact => put_one(code, put, at, negated, operand),
        _ => {
            rungs::put(code, put, instruction(Op::St, vars + depth));
            let inner = front_code(vars, words, at, depth + 1, code, put + 1);
            rungs::put(code, inner.put, instruction(op, vars + depth));
            Positions {
                next: inner.next,
                put: inner.put + 1,
            }
        }
    }
}

// Where the rung with a label begins in the list.
fn start_of(labels: &[u16], starts: &[u16], label: u32) -> u32
    ensures { (result ≡ start_in labels.now starts.now label) × (result < operands) }
{
    let rung = rungs::place_of(rungs::search_label(labels, label));
    u32::from(rungs::at_or(starts, rung, 0))
}

// The op of an output's instruction, by the kind of its word, if that is an output's.
fn output_op(kind: Kind) -> Option<Op>
    ensures { OutputOp kind result }
{
    match kind {
        Kind::Coil => Some(Op::St),
        Kind::NegatedCoil => Some(Op::Stn),
        Kind::Jump => Some(Op::Jmpc),
        Kind::NegatedJump => Some(Op::Jmpcn),
        Kind::SetCoil => Some(Op::S),
        Kind::ResetCoil => Some(Op::R),
        Kind::Timer => Some(Op::Ton),
        _ => None,
    }
}

// The instruction of an output, by the kind and the operand of its word, if the kind is an output's. A label stands for the start of its
// rung.
fn output_code(kind: Kind, operand: u32, labels: &[u16], starts: &[u16]) -> Option<u32>
    requires { operand < operands }
    ensures { OutputInstruction kind operand labels.now starts.now result }
{
    let op = output_op(kind)?;
    if ladder_kinds::names_label(kind.number()) {
        Some(instruction(op, start_of(labels, starts, operand)))
    } else {
        Some(instruction(op, operand))
    }
}

// R: the rear whose words begin at a position.
fn rear_code(
    vars: u32,
    words: &[u32],
    at: usize,
    depth: u32,
    labels: &[u16],
    starts: &[u16],
    code: &mut [u32],
    put: usize,
) -> Positions
    requires { (vars ≤ most_variables) × (length words.now ≤ most_words) × (depth + (length words.now - at) ≤ most_words)
        × (put + code_bound (length words.now - at) < 2 ^ 31) }
    ensures { RearPut vars words.now at depth labels.now starts.now put result
        code.old code.new }
{
    let word = rungs::at_or(words, at, 0);
    let Some(kind) = Kind::of(word / OPERANDS) else {
        return Positions { next: at, put };
    };
    match kind {
        Kind::RearAnd => {
            let joined = join_code(vars, words, at + 1, Op::And, Op::Andn, depth, code, put);
            let Positions { next, put } = joined;
            rear_code(vars, words, next, depth, labels, starts, code, put)
        }
        Kind::RearOr => {
            let inner = depth + 1;
            rungs::put(code, put, instruction(Op::St, vars + depth));
            let first = rear_code(vars, words, at + 1, inner, labels, starts, code, put + 1);
            let Positions { next, put } = first;
            rungs::put(code, put, instruction(Op::Ld, vars + depth));
            rear_code(vars, words, next, depth, labels, starts, code, put + 1)
        }
        _ => {
            let Some(output) = output_code(kind, word % OPERANDS, labels, starts) else {
                return Positions { next: at, put };
            };
            rungs::put(code, put, output);
            Positions {
                next: at + 1,
                put: put + 1,
            }
        }
    }
}

// A rung: F(front, 0) + R(rear, 0).
pub fn rung_code(
    vars: u32,
    words: &[u32],
    at: usize,
    labels: &[u16],
    starts: &[u16],
    code: &mut [u32],
    put: usize,
) -> Positions
    requires { (vars ≤ most_variables) × (length words.now ≤ most_words)
        × (put + code_bound (length words.now - at) < 2 ^ 31) }
    ensures { RungPut vars words.now at labels.now starts.now put result
        code.old code.new }
{
    let front = front_code(vars, words, at, 0, code, put);
    rear_code(vars, words, front.next, 0, labels, starts, code, front.put)
}
