// A word that is put before others in a buffer; past its end nothing is written.
ghost use Rattle.std.specs.Prelude.{◌+◌, ◌<◌, ◌^◌};
ghost use Rattle.text_fronts.specs.Parts.{Inserted};

// A word before the `count` words that stand from `from` on, where all have room.
pub fn insert(words: &mut [u32], from: usize, count: usize, word: u32)
    requires { from + count < 2 ^ 64 }
    ensures { Inserted words.old from count word words.new }
{
    let end = from + count;
    if end < words.len() {
        words.copy_within(from..end, from + 1);
        words[from] = word;
    }
}
