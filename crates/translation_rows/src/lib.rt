// Translate, from one lent row of rung records into another. Document 01, "Translation": "writes list and records from the start of two
// buffers; the rest stays".
#![tactic(auto)]

ghost use Rattle.ladder_definitions.specs.Kept.{kept_in};
ghost use Rattle.rungs.specs.Buffers.{buffers, as_buffers};
ghost use Rattle.rows.specs.Rows.{records_of, times_of};
ghost use Rattle.translation_definitions.specs.TranslateKept.{translate_kept, TranslateDone};

use questions::Refusal;
use rows::{Rows, Rung};
use rungs::{Buffers, MOST_RECORDS, Slices};
use translation_definitions::Counts;

// Translate, into the slices lent. They are lent one by one, since the beginning of an array, lent within a struct, is not known
// afterwards.
fn translate_fields(
    vars: u32,
    ladder: Slices,
    any: &[u32],
    words: &mut [u32],
    labels: &mut [u16],
    offsets: &mut [u32],
    lengths: &mut [u32],
    times: &mut [u32],
) -> Result<Counts, Refusal>
    ensures { TranslateDone (translate_kept vars (kept_in ladder.entry any.now)
        (buffers words.old labels.old offsets.old lengths.old times.old)) result
        (buffers words.new labels.new offsets.new lengths.new times.new) }
{
    let mut list = Buffers {
        words,
        labels,
        offsets,
        lengths,
        times,
    };
    translation::translate(vars, ladder, any, &mut list)
}

// Translate, from a copy of a row's fields into a copy of the fields of as many records as the other row has, or 256: a refusal writes no
// record. Their times are 0, which `scatter` puts.
pub fn translate(
    vars: u32,
    words: &[u32],
    row: &[Rung],
    code: &mut [u32],
    code_row: &mut [Rung],
) -> Result<Counts, Refusal>
    ensures { TranslateDone (translate_kept vars
        (record { words = words.now; records = records_of row.now })
        (as_buffers code.old (records_of code_row.old) (times_of code_row.old))) result
        (as_buffers code.new (records_of code_row.new) (times_of code_row.new)) }
{
    if MOST_RECORDS < row.len() {
        let holds = ladder_rows::long_holds(row, words);
        return Err(ladder_rows::long_refusal(vars, holds));
    }
    let rows = rows::gather(row);
    // 02, Req 04: "Any value is taken".
    let any = [0; MOST_RECORDS];
    let room = MOST_RECORDS.min(code_row.len());
    let mut labels = [0; MOST_RECORDS];
    let mut offsets = [0; MOST_RECORDS];
    let mut lengths = [0; MOST_RECORDS];
    let mut times = [0; MOST_RECORDS];
    let counts = translate_fields(
        vars,
        rows.slices(words),
        &any[..row.len()],
        code,
        &mut labels[..room],
        &mut offsets[..room],
        &mut lengths[..room],
        &mut times[..room],
    )?;
    let written = Rows {
        labels,
        offsets,
        lengths,
        n: code_row.len(),
    };
    rows::scatter(code_row, &written, counts.rungs);
    Ok(counts)
}
