// What an instruction does. Document 01, "What a list does"; document 02, Req 01 and 06.
#![tactic(auto)]

ghost use Rattle.std.specs.Prelude.{◌≡◌, cond, ◌+◌, ◌<◌, ◌^◌};
ghost use Rattle.list_instructions.specs.Parts.{Did};

use list_ops::Op;
use table::State;

// Accumulator and index after an instruction.
#[derive(Clone, Copy)]
pub struct Effect {
    pub accumulator: bool,
    pub index: usize,
}

// The effect of an instruction after which accumulator and index are these.
fn after(accumulator: bool, index: usize) -> Effect
    ensures { result ≡ record { accumulator = accumulator; index = index } }
{
    Effect { accumulator, index }
}

// The first index where the condition holds, and else the second.
fn choose(condition: bool, first: usize, second: usize) -> usize
    ensures { result ≡ cond condition first second }
{
    if condition { first } else { second }
}

// What an instruction does, from the accumulator before it and the index after it where it does not jump.
pub fn carry_out(word: u32, accumulator: bool, straight: usize, state: &mut State) -> Effect
    requires { state.old.moved + 1 < 2 ^ 32 }
    ensures { Did word accumulator straight state.old result state.new }
{
    // No instruction has another op, so any index will do where there is none. `straight` in place of 0 would cost a scan a tenth
    // more machine instructions.
    let Some(op) = Op::of(word / rungs::OPERANDS) else {
        return after(accumulator, 0);
    };
    let operand = (word % rungs::OPERANDS) as usize;
    match op {
        Op::Ld => after(state.value(operand), straight),
        Op::Ldn => after(!state.value(operand), straight),
        Op::St => {
            state.write(operand, accumulator);
            after(accumulator, straight)
        }
        Op::Stn => {
            state.write(operand, !accumulator);
            after(accumulator, straight)
        }
        Op::And => after(accumulator & state.value(operand), straight),
        Op::Andn => after(accumulator & !state.value(operand), straight),
        Op::Or => after(accumulator | state.value(operand), straight),
        Op::Orn => after(accumulator | !state.value(operand), straight),
        Op::Xor => after(accumulator ^ state.value(operand), straight),
        Op::Xorn => after(accumulator ^ !state.value(operand), straight),
        Op::Not => after(!accumulator, straight),
        Op::Jmp => after(accumulator, operand),
        Op::Jmpc => after(accumulator, choose(accumulator, operand, straight)),
        Op::Jmpcn => after(accumulator, choose(accumulator, straight, operand)),
        Op::S => {
            state.write_if(operand, accumulator, true);
            after(accumulator, straight)
        }
        Op::R => {
            state.write_if(operand, accumulator, false);
            after(accumulator, straight)
        }
        Op::Ton => {
            timers::run_timer(state, operand, accumulator);
            after(accumulator, straight)
        }
    }
}
