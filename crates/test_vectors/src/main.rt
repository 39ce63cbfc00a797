// Answers test requests for the six calls and for the search for a label, one a line, until the input ends or a request is bad.
#![tactic(auto)]

use test_requests::input::Input;
use test_requests::output::Output;

fn main(rt: HostRuntime) {
    let mut input = Input::new(rt.stdin());
    let mut output = Output::new(rt.stdout());
    test_answers::answer_all(&mut input, &mut output);
}
