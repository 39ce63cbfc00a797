// Questions 5 to 8 and 17. The words of a rung are those from the end of the rung before it on, as many as its length says.
#![tactic(auto)]

ghost use Rattle.std.specs.Prelude.{◌≡◌, ◌<◌};
ghost use Rattle.rungs.specs.Words.{operands};
ghost use Rattle.questions.specs.Tests.{all};
ghost use Rattle.std.specs.Fn.{FnReturns, FnReturnsAt};
ghost use Rattle.ladder_names.specs.Asking.{length_in_range, word_below, word_leads, word_timed, WordsAsked, RungsAsked};
ghost use Rattle.ladder_names.specs.Asking.{SizesAsked, VariablesAsked, RiseAsked, LabelsAsked, JumpsAsked, TimersAsked};

use ladder_kinds::Kind;
use rungs::OPERANDS;

// Past the words of timers. Where this is taken off, modulo 2^32, they are the greatest, in their order.
const PAST_TIMERS: u32 = (Kind::Timer as u32 + 1) * OPERANDS;

fn lengths_in_range(lengths: &[u32]) -> bool
    ensures { result ≡ all length_in_range lengths.now }
{
    lengths
        .iter()
        .all(|length| *length as usize <= ladder_kinds::MOST_RUNG_WORDS)
}

// Question 5.
pub fn sizes_in_range(words: &[u32], lengths: &[u32]) -> bool
    ensures { SizesAsked words.now lengths.now result }
{
    lengths.len() <= rungs::MOST_RECORDS
        && lengths_in_range(lengths)
        && words.len() <= ladder_kinds::MOST_WORDS
}

// Whether every word passes a test: a loop with no exit, of which the compiler makes a few wide steps.
fn every_word<F: Fn(u32) -> bool>(words: &[u32], passes: F) -> bool
    requires { F.IsAlwaysCallable passes }
    ensures { WordsAsked (FnReturns F.Fn passes) words.now result }
{
    let mut all = true;
    for word in words {
        all &= passes(*word);
    }
    all
}

// The first rung whose words fail a test, if one does.
fn first_failing<F: Fn(&[u32]) -> bool>(words: &[u32], lengths: &[u32], passes: F) -> Option<usize>
    requires { F.IsAlwaysCallable passes }
    ensures { RungsAsked (FnReturnsAt F.Fn passes) words.now lengths.now result }
{
    let mut rest = words;
    for (rung, length) in lengths.iter().enumerate() {
        let (own, later) = rest.split_at(rest.len().min(*length as usize));
        if !passes(own) {
            return Some(rung);
        }
        rest = later;
    }
    None
}

// No branch: the compiler makes a few wide steps of a loop over words.
#[tactic(auto, using(crate::proofs::Asked::below_operand))]
fn word_below(vars: u32, word: u32) -> bool
    ensures { result ≡ word_below vars word }
{
    !ladder_kinds::names_variable(word / OPERANDS) | (word % OPERANDS < vars)
}

fn words_below(vars: u32, words: &[u32]) -> bool
    ensures { result ≡ all (word_below vars) words.now }
{
    every_word(words, |word| word_below(vars, word))
}

// Question 6: the first rung with a variable that is not below `vars`. All words are asked first, and the place only where one fails.
pub fn unknown_variable(vars: u32, words: &[u32], lengths: &[u32]) -> Option<usize>
    ensures { VariablesAsked vars words.now lengths.now result }
{
    if words_below(vars, words) {
        return None;
    }
    first_failing(words, lengths, |own| words_below(vars, own))
}

// Whether each label is above the one before it. Then no two are the same.
fn labels_rise(labels: &[u16]) -> bool
    ensures { RiseAsked labels.now result }
{
    // Not is_sorted_by, whose answer the check doesn't carry from the closure to the labels.
    for i in 1..labels.len() {
        if labels[i] <= labels[i - 1] {
            return false;
        }
    }
    true
}

// The first rung whose label an earlier one has.
fn first_repeated(labels: &[u16]) -> Option<usize>
    ensures { LabelsAsked labels.now result }
{
    let mut found = None;
    'rungs: for j in 0..labels.len() {
        for i in 0..j {
            if labels[i] == labels[j] {
                found = Some(j);
                break 'rungs;
            }
        }
    }
    found
}

// Question 7. Labels that rise, as most ladders have them, need no search.
pub fn repeated_label(labels: &[u16]) -> Option<usize>
    ensures { LabelsAsked labels.now result }
{
    if labels_rise(labels) {
        return None;
    }
    first_repeated(labels)
}

fn word_leads(labels: &[u16], word: u32) -> bool
    ensures { result ≡ word_leads labels.now word }
{
    !ladder_kinds::names_label(word / OPERANDS)
        || rungs::place_of(rungs::search_label(labels, word % OPERANDS)) < labels.len()
}

fn words_lead(labels: &[u16], words: &[u32]) -> bool
    ensures { result ≡ all (word_leads labels.now) words.now }
{
    words.iter().all(|word| word_leads(labels, *word))
}

// Question 8: the first rung with a jump to a label that no rung has. A ladder without a jump has none.
pub fn missing_label(labels: &[u16], words: &[u32], lengths: &[u32]) -> Option<usize>
    ensures { JumpsAsked labels.now words.now lengths.now result }
{
    if every_word(words, |word| !ladder_kinds::names_label(word / OPERANDS)) {
        return None;
    }
    first_failing(words, lengths, |own| words_lead(labels, own))
}

// Whether a word names no timer past so many; one comparison.
fn timer_known(records: u32, word: u32) -> bool
    requires { records < operands }
    ensures { result ≡ word_timed records word }
{
    word.wrapping_sub(PAST_TIMERS) <= u32::MAX - OPERANDS + records
}

// Question 17: whether every timer number has a record, of so many.
pub fn timers_known(words: &[u32], records: usize) -> bool
    ensures { TimersAsked records words.now result }
{
    if OPERANDS as usize <= records {
        return true;
    }
    every_word(words, |word| timer_known(records as u32, word))
}
