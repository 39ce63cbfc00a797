// Runs the output of ladder-list over whole inputs, and prints each after the line that names it, and what is wrong after a refusal; the
// stored output was made from document 01 and the README by a script, not by this program.
#![tactic(auto)]

use questions::Refusal;
use test_requests::cases;
use test_requests::input::Input;
use test_requests::output::Output;

fn put_errors(output: &mut Output, refusal: Refusal) {
    let mut lines = [0; 600];
    let count = program_refusals::put_errors(&mut lines, b"ladder-list", false, refusal);
    output.bytes(lines.get(..count).unwrap_or(&[]));
}

// What ladder-list prints for an input, and what is wrong with it.
fn put_case(output: &mut Output, input: &[u8]) {
    let mut out = [0; 66000];
    let printed = program_list_output::run(input, &mut out);
    let placed = program_refusals::finish(printed, &mut out);
    output.bytes(out.get(..placed).unwrap_or(&[]));
    if let Err(refusal) = printed {
        put_errors(output, refusal);
    }
}

fn main(rt: HostRuntime) {
    let mut input = Input::new(rt.stdin());
    let mut output = Output::new(rt.stdout());
    let mut bytes = [0; 70002];
    cases::run_all(&mut input, &mut output, &mut bytes, put_case);
    output.flush();
}
