// Read into one lent row of rung records. Document 01, "Text": "Read returns word and rung counts and writes words and records likewise."
#![tactic(auto)]

ghost use Rattle.rungs.specs.Buffers.{buffers, as_buffers};
ghost use Rattle.rows.specs.Rows.{records_of, times_of};
ghost use Rattle.text_definitions.specs.Read.{read_text, ReadDone};

use questions::Refusal;
use rows::{Rows, Rung};
use rungs::{Buffers, MOST_RECORDS};
use text_definitions::Counts;

// Read, into the slices lent. They are lent one by one, since the beginning of an array, lent within a struct, is not known afterwards.
fn read_fields(
    vars: u32,
    text: &[u8],
    words: &mut [u32],
    labels: &mut [u16],
    offsets: &mut [u32],
    lengths: &mut [u32],
    times: &mut [u32],
) -> Result<Counts, Refusal>
    ensures { ReadDone (read_text vars text.now
        (buffers words.old labels.old offsets.old lengths.old times.old)) result
        (buffers words.new labels.new offsets.new lengths.new times.new) }
{
    let mut lent = Buffers {
        words,
        labels,
        offsets,
        lengths,
        times,
    };
    text::read(vars, text, &mut lent)
}

// Read, into a copy of the fields of as many records as the row has, or 256: a refusal writes no record. Their times are 0, which `scatter`
// puts.
pub fn read(vars: u32, text: &[u8], words: &mut [u32], row: &mut [Rung]) -> Result<Counts, Refusal>
    ensures { ReadDone (read_text vars text.now
        (as_buffers words.old (records_of row.old) (times_of row.old))) result
        (as_buffers words.new (records_of row.new) (times_of row.new)) }
{
    let room = MOST_RECORDS.min(row.len());
    let mut labels = [0; MOST_RECORDS];
    let mut offsets = [0; MOST_RECORDS];
    let mut lengths = [0; MOST_RECORDS];
    let mut times = [0; MOST_RECORDS];
    let counts = read_fields(
        vars,
        text,
        words,
        &mut labels[..room],
        &mut offsets[..room],
        &mut lengths[..room],
        &mut times[..room],
    )?;
    let rows = Rows {
        labels,
        offsets,
        lengths,
        n: row.len(),
    };
    rows::scatter(row, &rows, counts.rungs);
    Ok(counts)
}
