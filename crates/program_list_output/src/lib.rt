// What the program ladder-list prints. Document 01, "Listing".
#![tactic(auto)]

ghost use Rattle.std.specs.Prelude.{◌≤◌};
ghost use Rattle.rungs.specs.Buffers.{row_in};
ghost use Rattle.printing.specs.Put.{Put};
ghost use Rattle.ladder_definitions.specs.Kept.{kept_in};
ghost use Rattle.translation_definitions.specs.TranslateKept.{counts_in};
ghost use Rattle.program_definitions.specs.Outcome.{Done};
ghost use Rattle.program_definitions.specs.Printout.{count_line, list_printed, kept_printed, text_printed, outcome};

use ladder_kinds::MOST_WORDS;
use list_names::TABLE_BYTES;
use list_ops::MOST_INSTRUCTIONS;
pub use program_numbers::MOST_KEPT;
use questions::Refusal;
use rungs::{Buffers, MOST_RECORDS, Slices};
use translation_definitions::Counts;

// Listing is lent 65,536 bytes.
const MOST_LISTING: usize = 65536;

// A listing and a count line fit here.
pub const MOST_OUTPUT: usize = MOST_LISTING + 64;

// The line "rungs R instructions I longest L".
#[tactic(auto, using(printing::proofs::Laws::Puts::decimal_most))]
fn put_counts(out: &mut [u8], at: usize, counts: Counts) -> usize
    requires { at ≤ 70000 }
    ensures { Put out.old at (count_line (counts_in counts)) result out.new }
{
    let first = printing::put_text(out, at, b"rungs ");
    let rungs = printing::put_number(out, first, counts.rungs);
    let second = printing::put_text(out, rungs, b" instructions ");
    let instructions = printing::put_number(out, second, counts.instructions);
    let third = printing::put_text(out, instructions, b" longest ");
    let longest = printing::put_number(out, third, counts.longest);
    printing::put_text(out, longest, b"\n")
}

// A list's listing, in the names of the fixed table, and count line.
fn print_list(
    vars: u32,
    list: Slices,
    times: &[u32],
    counts: Counts,
    out: &mut [u8],
) -> Result<usize, Refusal>
    ensures { Done (list_printed vars list.entry.words.now (row_in list.entry times.now) (counts_in counts))
        out.old result out.new }
{
    let mut names = [0; TABLE_BYTES];
    list_names::put_fixed_names(&mut names);
    let mut listing = [0; MOST_LISTING];
    let n = list::listing(vars, list, times, &names, &mut listing)?;
    let end = printing::put_text(out, 0, &listing[..n]);
    Ok(put_counts(out, end, counts))
}

// A kept ladder's.
fn print_kept(vars: u32, ladder: Slices, times: &[u32], out: &mut [u8]) -> Result<usize, Refusal>
    ensures { Done (kept_printed vars (kept_in ladder.entry times.now)) out.old result out.new }
{
    let mut code = [0; MOST_INSTRUCTIONS];
    let mut labels = [0; MOST_RECORDS];
    let mut offsets = [0; MOST_RECORDS];
    let mut lengths = [0; MOST_RECORDS];
    let mut list_times = [0; MOST_RECORDS];
    let mut buffers = Buffers {
        words: &mut code,
        labels: &mut labels,
        offsets: &mut offsets,
        lengths: &mut lengths,
        times: &mut list_times,
    };
    let counts = translation::translate(vars, ladder, times, &mut buffers)?;
    let list = Slices {
        words: &code,
        labels: &labels,
        offsets: &offsets,
        lengths: &lengths,
    }
    .first(counts.instructions, counts.rungs);
    print_list(vars, list, &list_times[..counts.rungs], counts, out)
}

// V and a text's.
pub fn print(vars: u32, text: &[u8], out: &mut [u8]) -> Result<usize, Refusal>
    ensures { Done (text_printed vars text.now) out.old result out.new }
{
    let mut words = [0; MOST_WORDS];
    let mut labels = [0; MOST_RECORDS];
    let mut offsets = [0; MOST_RECORDS];
    let mut lengths = [0; MOST_RECORDS];
    let mut times = [0; MOST_RECORDS];
    let mut buffers = Buffers {
        words: &mut words,
        labels: &mut labels,
        offsets: &mut offsets,
        lengths: &mut lengths,
        times: &mut times,
    };
    let counts = text::read(vars, text, &mut buffers)?;
    let ladder = Slices {
        words: &words,
        labels: &labels,
        offsets: &offsets,
        lengths: &lengths,
    }
    .first(counts.words, counts.rungs);
    print_kept(vars, ladder, &times[..counts.rungs], out)
}

// The whole input's.
pub fn run(input: &[u8], out: &mut [u8]) -> Result<usize, Refusal>
    ensures { Done (outcome input.now) out.old result out.new }
{
    let first = program_numbers::take_number(input, 0);
    let from = first.at;
    let to = program_numbers::kept_end(input.len(), from, MOST_KEPT);
    print(first.line.variables(), &input[from..to], out)
}
