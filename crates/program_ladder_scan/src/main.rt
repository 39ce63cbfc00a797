// The program ladder-scan: reads standard input, writes standard output, and says on standard error what is wrong. What it prints is the
// library program_scan_output's.
#![tactic(auto)]

ghost use Rattle.std.specs.Prelude.{◌≤◌, length, IfOk};

use program_chunks::Reading;
use std::io;
use std::io::Stdin;

const NAME: &[u8] = b"ladder-scan";

// The variables line; its zeros and ones go into the table.
fn variables_line(
    stdin: Stdin,
    chunk: &mut [u8],
    reading: &mut Reading,
    vars: u32,
    table: &mut [u8],
) -> io::Result<Option<u32>> {
    let mut variables = Some(0);
    program_chunks::take_line(stdin, chunk, reading, |byte| {
        variables = program_scan_lines::next_variable(variables, vars, byte, table);
    })?;
    Ok(variables)
}

// V, the rung watchdog, how many bytes the table has, and how many were kept after the variables line.
#[derive(Clone, Copy)]
struct Taken {
    vars: u32,
    watchdog: u32,
    bytes: usize,
    kept: usize,
}

// The three lines, and what follows them.
fn take_input(
    rt: HostRuntime,
    chunk: &mut [u8],
    reading: &mut Reading,
    table: &mut [u8],
    rest: &mut [u8],
) -> io::Result<Taken>
    ensures { IfOk result (λ taken. (taken.bytes ≤ 1056) × (taken.kept ≤ length rest.old)) }
{
    let vars = program_lines::number_line(rt.stdin(), chunk, reading)?.variables();
    let second = program_lines::number_line(rt.stdin(), chunk, reading)?;
    let variables = variables_line(rt.stdin(), chunk, reading, vars, table)?;
    let kept = program_chunks::keep_text(rt.stdin(), chunk, reading, rest)?;
    Ok(Taken {
        vars,
        watchdog: program_scan_lines::watchdog(second),
        bytes: program_scan_lines::table_bytes(variables, vars),
        kept,
    })
}

// Both scans side by side, or the refusal.
fn print(rt: HostRuntime, vars: u32, watchdog: u32, table: &[u8], rest: &[u8], crlf: bool) {
    let mut out = [0; program_scan_output::MOST_REPORT];
    let printed = program_scan_output::report_rest(vars, watchdog, table, rest, &mut out);
    let placed = program_refusals::finish(printed, &mut out);
    program_refusals::write_output(rt.stdout(), rt.stderr(), NAME, &out[..placed]);
    if let Err(refusal) = printed {
        program_refusals::write_errors(rt.stderr(), NAME, refusal, crlf);
    }
}

fn main(rt: HostRuntime) {
    let mut chunk = [0; 65536];
    let mut rest = [0; program_scan_lines::MOST_REST];
    let mut table = [0; program_scan_lines::MOST_TABLE];
    let mut reading = Reading::default();
    let Ok(taken) = take_input(rt, &mut chunk, &mut reading, &mut table, &mut rest) else {
        program_refusals::complain(rt.stderr(), NAME, b"standard input could not be read\n");
        return;
    };
    print(
        rt,
        taken.vars,
        taken.watchdog,
        &table[..taken.bytes],
        &rest[..taken.kept],
        reading.crlf,
    );
}
