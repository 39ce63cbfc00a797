// Makes one request's call a given number of times, and prints the last answer: the speed of the calls, side by side with C (bench/run).
#![tactic(auto)]

use test_requests::input::Input;
use test_requests::output::Output;

fn main(rt: HostRuntime) {
    let mut input = Input::new(rt.stdin());
    let mut output = Output::new(rt.stdout());
    test_answers::answer_turns(&mut input, &mut output);
}
