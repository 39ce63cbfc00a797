// Questions 10 and 17.
#![tactic(auto)]

ghost use Rattle.std.specs.Prelude.{◌≡◌, length};
ghost use Rattle.questions.specs.Tests.{all};
ghost use Rattle.rungs.specs.Records.{fields_of};
ghost use Rattle.list_definitions.specs.Questions.{word_in_range, list_in_range};
ghost use Rattle.list_questions.specs.Parts.{sizes_in_range, laid_pairs, last_known, TimersAsked};

use list_ops::{Op, OperandSort};
use rungs::Slices;

// An op and its operand, for a table of `size` bytes and a list of n instructions.
#[tactic(auto, using(list_ops::proofs::Laws::Sorts::word_by_sort), unfolding(list_ops::specs::Sorts::sort_in, list_ops::proofs::Laws::Sorts::sort_in_range))]
fn word_in_range(size: usize, n: usize, word: u32) -> bool
    ensures { result ≡ word_in_range size n word }
{
    let operand = (word % rungs::OPERANDS) as usize;
    match list_ops::operand_sort(word / rungs::OPERANDS) {
        Some(OperandSort::Table) => operand < size,
        Some(OperandSort::Nothing) => operand == 0,
        Some(OperandSort::Instruction) => operand <= n,
        Some(OperandSort::Timer) => true,
        None => false,
    }
}

fn code_in_range(size: usize, code: &[u32]) -> bool
    ensures { result ≡ all (word_in_range size (length code.now)) code.now }
{
    code.iter()
        .all(|word| word_in_range(size, code.len(), *word))
}

// Records laid one after the other, none of length 0, up to `end`. Sums are wider than offsets and lengths, so none wraps.
fn records_laid(offsets: &[u32], lengths: &[u32], end: usize) -> bool
    requires { length offsets.now ≡ length lengths.now }
    ensures { result ≡ laid_pairs 0 end offsets.now lengths.now }
{
    let mut start: u64 = 0;
    for (offset, length) in offsets.iter().zip(lengths) {
        let off = u64::from(*offset) != start;
        let empty = *length < 1;
        if off || empty {
            return false;
        }
        start += u64::from(*length);
    }
    start == end as u64
}

// Whether there are as many instructions and records as there may be, and a record for each label.
fn sizes_in_range(list: Slices) -> bool
    ensures { result ≡ sizes_in_range (length list.entry.words.now) (length list.entry.labels.now) (length list.entry.offsets.now) (length list.entry.lengths.now) }
{
    (1..=list_ops::MOST_INSTRUCTIONS).contains(&list.words.len())
        && list.labels.len() == list.offsets.len()
        && list.offsets.len() == list.lengths.len()
        && (1..=rungs::MOST_RECORDS).contains(&list.labels.len())
}

#[tactic(auto, using(crate::proofs::Ranges::in_parts))]
pub fn list_in_range(vars: u32, list: Slices) -> bool
    ensures { result ≡ list_in_range vars list.entry.words.now
        (fields_of list.entry.labels.now list.entry.offsets.now list.entry.lengths.now) }
{
    sizes_in_range(list)
        && records_laid(list.offsets, list.lengths, list.words.len())
        && code_in_range(vars as usize + table::SCRATCH_BYTES, list.words)
}

// The last word before those of a TON whose number has no record.
#[tactic(auto, unfolding(list_ops::specs::Ops::op_number))]
fn last_known(records: usize) -> u32
    ensures { result ≡ last_known records }
{
    let numbers = records.min(rungs::OPERANDS as usize);
    Op::Ton.number() * rungs::OPERANDS + numbers as u32 - 1
}

// Question 17, after question 10. TON is the last op, so that one comparison tells its words; the loop has no exit, so that it runs
// over several words at a time.
pub fn timers_known(code: &[u32], records: usize) -> bool
    ensures { TimersAsked code.now records result }
{
    let last = last_known(records);
    code.iter()
        .fold(true, |known, word| known & (*word <= last))
}
