// Whole inputs of a program as test cases: a line that names the case, a line with the number of bytes, these bytes, and a line feed.
ghost use Rattle.std.specs.Prelude.{◌≤◌, length, IfSome};

use crate::input::Input;
use crate::output::Output;

// As many as no run uses up.
const MOST_CASES: u64 = 4000000000;

const NAME_BYTES: usize = 80;

// A case's name line, with the line feed, and its own input.
#[derive(Clone, Copy)]
pub struct Case<'a> {
    pub name: &'a [u8],
    pub bytes: &'a [u8],
}

impl Input {
    // The bytes that follow, as far as there is room, up to the input's end or a last byte, which is taken too: how many these are.
    fn take(&mut self, room: &mut [u8], last: Option<u8>) -> usize
        ensures { result ≤ length room.old }
    {
        for at in 0..room.len() {
            let Ok(Some(byte)) = self.byte() else {
                return at;
            };
            room[at] = byte;
            if last == Some(byte) {
                return at + 1;
            }
        }
        room.len()
    }

    // How many bytes a case has. With a number too large it has none, and what the chunk still holds is given up.
    fn case_length(&mut self) -> usize {
        let Some(length) = self.number() else {
            self.give_up();
            return 0;
        };
        length as usize
    }

    // The next case, each part as far as there is room; none where the input is at its end.
    pub fn case<'a>(&mut self, name: &'a mut [u8], bytes: &'a mut [u8]) -> Option<Case<'a>>
        ensures { IfSome result (λ case. length case.bytes.now ≤ length bytes.old) }
    {
        let named = self.take(name, Some(b'\n'));
        if named == 0 {
            return None;
        }
        let most = self.case_length().min(bytes.len());
        let filled = self.take(&mut bytes[..most], None);
        let _line_feed = self.byte();
        Some(Case {
            name: &name[..named],
            bytes: &bytes[..filled],
        })
    }
}

// Puts the next case's name line, and what `put` puts for its input. Tells whether there was one.
fn run<P: Fn(&mut Output, &[u8])>(
    input: &mut Input,
    output: &mut Output,
    bytes: &mut [u8],
    put: &P,
) -> bool
    requires { P.IsAlwaysCallable put.now }
{
    let mut name = [0; NAME_BYTES];
    let Some(case) = input.case(&mut name, bytes) else {
        return false;
    };
    output.bytes(case.name);
    put(output, case.bytes);
    true
}

// All cases.
pub fn run_all<P: Fn(&mut Output, &[u8])>(
    input: &mut Input,
    output: &mut Output,
    bytes: &mut [u8],
    put: P,
)
    requires { P.IsAlwaysCallable put }
{
    for _ in 0..MOST_CASES {
        if !run(input, output, bytes, &put) {
            return;
        }
    }
}
