// The program ladder-list: reads standard input, writes standard output, and says on standard error what is wrong. What it prints is the
// library program_list_output's.
#![tactic(auto)]

ghost use Rattle.std.specs.Prelude.{◌≤◌, length, IfOk};

use program_chunks::Reading;
use std::io;

const NAME: &[u8] = b"ladder-list";

// V, and how many bytes of the text were kept.
#[derive(Clone, Copy)]
struct Taken {
    vars: u32,
    kept: usize,
}

// The first line, and the text after it.
fn take_input(
    rt: HostRuntime,
    chunk: &mut [u8],
    reading: &mut Reading,
    text: &mut [u8],
) -> io::Result<Taken>
    ensures { IfOk result (λ taken. taken.kept ≤ length text.old) }
{
    let line = program_lines::number_line(rt.stdin(), chunk, reading)?;
    let kept = program_chunks::keep_text(rt.stdin(), chunk, reading, text)?;
    Ok(Taken {
        vars: line.variables(),
        kept,
    })
}

// The listing and the count line, or the refusal.
fn print(rt: HostRuntime, vars: u32, text: &[u8], crlf: bool) {
    let mut out = [0; program_list_output::MOST_OUTPUT];
    let printed = program_list_output::print(vars, text, &mut out);
    let placed = program_refusals::finish(printed, &mut out);
    program_refusals::write_output(rt.stdout(), rt.stderr(), NAME, &out[..placed]);
    if let Err(refusal) = printed {
        program_refusals::write_errors(rt.stderr(), NAME, refusal, crlf);
    }
}

fn main(rt: HostRuntime) {
    let mut chunk = [0; 65536];
    let mut text = [0; program_list_output::MOST_KEPT];
    let mut reading = Reading::default();
    let Ok(taken) = take_input(rt, &mut chunk, &mut reading, &mut text) else {
        program_refusals::complain(rt.stderr(), NAME, b"standard input could not be read\n");
        return;
    };
    print(rt, taken.vars, &text[..taken.kept], reading.crlf);
}
