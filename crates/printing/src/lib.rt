// Bytes and numbers printed into a buffer. Each function puts its text from `at` on and gives the position after it; past the buffer's
// end nothing is written, so that the same functions count, over a buffer of none.
#![tactic(auto)]

ghost use Rattle.std.specs.Prelude.{[], ◌∷◌, ◌+◌, ◌≤◌, ◌<◌, length};
ghost use Rattle.questions.specs.Bytes.{decimal};
ghost use Rattle.printing.specs.Put.{Put};

pub fn put_byte(out: &mut [u8], at: usize, b: u8) -> usize
    requires { at < 1000000 }
    ensures { Put out.old at (b ∷ []) result out.new }
{
    if at < out.len() {
        out[at] = b;
    }
    at + 1
}

// A number in decimal, without leading zeros.
pub fn put_number(out: &mut [u8], at: usize, n: usize) -> usize
    requires { at < 900000 }
    ensures { Put out.old at (decimal n) result out.new }
{
    let end = if n < 10 {
        at
    } else {
        put_number(out, at, n / 10)
    };
    put_byte(out, end, b'0' + (n % 10) as u8)
}

// The bytes of a text.
pub fn put_text(out: &mut [u8], at: usize, text: &[u8]) -> usize
    requires { (at < 900000) × (length text.now ≤ 70000) }
    ensures { Put out.old at text.now result out.new }
{
    let mut end = at;
    for byte in text {
        end = put_byte(out, end, *byte);
    }
    end
}
