// A refusal as the programs print it: its line, and what is wrong in plain words. Document 01, "Listing"; README, "Refusals".
#![tactic(auto)]

ghost use Rattle.std.specs.Prelude.{◌++◌, ◌≤◌, length};
ghost use Rattle.questions.specs.Bytes.{bytes, decimal};
ghost use Rattle.questions.specs.Refusals.{refusal_of};
ghost use Rattle.printing.specs.Put.{Put};
ghost use Rattle.program_definitions.specs.Outcome.{Finished, FinishedWithin};
ghost use Rattle.program_definitions.specs.Refusals.{refusal_line, explanation, error_lines};

use questions::Refusal;
use std::io::{Stderr, Stdout};

// The line "refused N place P".
#[tactic(auto, using(printing::proofs::Laws::Puts::decimal_most), unfolding(questions::specs::Bytes::bytes))]
pub fn put_refusal(out: &mut [u8], refusal: Refusal) -> usize
    ensures put { Put out.old 0 (refusal_line (refusal_of refusal)) result out.new }
    ensures upper_bound { result ≤ 60 }
{
    let word = printing::put_text(out, 0, b"refused ");
    let number = printing::put_number(out, word, refusal.number());
    let at = printing::put_text(out, number, b" place ");
    let place = printing::put_number(out, at, refusal.place());
    printing::put_text(out, place, b"\n")
}

// A text with a place in its middle.
#[tactic(auto, using(printing::proofs::Laws::Puts::decimal_most))]
fn put_placed(out: &mut [u8], at: usize, before: &[u8], place: usize, after: &[u8]) -> usize
    requires { (at ≤ 1000) × (length before.now ≤ 100) × (length after.now ≤ 100) }
    ensures { Put out.old at (before.now ++ (decimal place ++ after.now)) result out.new }
{
    let first = printing::put_text(out, at, before);
    let number = printing::put_number(out, first, place);
    printing::put_text(out, number, after)
}

// A text that begins with a rung's place.
#[tactic(auto, unfolding(questions::specs::Bytes::bytes))]
fn put_rung(out: &mut [u8], at: usize, rung: usize, after: &[u8]) -> usize
    requires { (at ≤ 1000) × (length after.now ≤ 100) }
    ensures { Put out.old at (bytes "rung " ++ (decimal rung ++ after.now)) result out.new }
{
    put_placed(out, at, b"rung ", rung, after)
}

// What is wrong.
#[tactic(auto, unfolding(questions::specs::Refusals::refusal_of, program_definitions::specs::Refusals::explanation, program_definitions::specs::Refusals::explanations, questions::specs::Bytes::bytes))]
fn put_explanation(out: &mut [u8], at: usize, refusal: Refusal) -> usize
    requires { at ≤ 1000 }
    ensures { Put out.old at (explanation (refusal_of refusal)) result out.new }
{
    match refusal {
        Refusal::Variables => printing::put_text(out, at, b"V is not a number from 1 to 1,024\n"),
        Refusal::TextLength => printing::put_text(
            out,
            at,
            b"the text is empty or longer than 65,535 bytes\n",
        ),
        Refusal::Text { place } => put_placed(
            out,
            at,
            b"the text stops being a ladder at byte ",
            place,
            b", counting from 0\n",
        ),
        Refusal::Kept => printing::put_text(out, at, b"the words and records hold no ladder\n"),
        Refusal::Sizes => printing::put_text(
            out,
            at,
            b"the ladder has more than 256 rungs, 128 words in a rung or 8,192 words\n",
        ),
        Refusal::Variable { rung } => put_rung(
            out,
            at,
            rung,
            b", counting from 0, names a variable that is not below V\n",
        ),
        Refusal::Label { rung } => put_rung(
            out,
            at,
            rung,
            b", counting from 0, has the label of an earlier rung\n",
        ),
        Refusal::Jump { rung } => put_rung(
            out,
            at,
            rung,
            b", counting from 0, jumps to a label that no rung has\n",
        ),
        Refusal::Scratch => printing::put_text(
            out,
            at,
            b"the translation needs more scratch than t0 to t31\n",
        ),
        Refusal::List => printing::put_text(
            out,
            at,
            b"the list is not one of 1 to 16,384 instructions with 1 to 256 records laid one after the other\n",
        ),
        Refusal::Table => printing::put_text(
            out,
            at,
            b"the variables line is not V zeros and ones, variable 0 first\n",
        ),
        Refusal::Watchdog => printing::put_text(
            out,
            at,
            b"the rung watchdog is not a number from 0 to 65,535\n",
        ),
        Refusal::Buffer => printing::put_text(
            out,
            at,
            b"the listing is longer than 65,536 bytes\n",
        ),
        Refusal::NameTable => printing::put_text(
            out,
            at,
            b"the name table is not seventeen different names of 1 to 6 capitals, each filled with zeros to six bytes\n",
        ),
        Refusal::ListText => printing::put_text(
            out,
            at,
            b"the text is not a listing in the table's names\n",
        ),
        Refusal::Timers => printing::put_text(
            out,
            at,
            b"there are more than 32 timers, or a timer's variable is not below V or is another timer's too\n",
        ),
        Refusal::TimerNumber => printing::put_text(
            out,
            at,
            b"the ladder names a timer that has no record\n",
        ),
    }
}

// The program's name, before what it says.
fn put_name(out: &mut [u8], at: usize, name: &[u8]) -> usize
    requires { (at ≤ 1000) × (length name.now ≤ 100) }
    ensures { Put out.old at (name.now ++ bytes ": ") result out.new }
{
    let end = printing::put_text(out, at, name);
    printing::put_text(out, end, b": ")
}

// The lines for standard error.
pub fn put_errors(out: &mut [u8], name: &[u8], crlf: bool, refusal: Refusal) -> usize
    requires { length name.now ≤ 100 }
    ensures put { Put out.old 0 (error_lines name.now crlf (refusal_of refusal)) result out.new }
    ensures upper_bound { result ≤ 600 }
{
    let first = put_name(out, 0, name);
    let wrong = put_explanation(out, first, refusal);
    if !crlf {
        return wrong;
    }
    let second = put_name(out, wrong, name);
    printing::put_text(
        out,
        second,
        b"the input has CR LF line ends: a line ends with LF alone\n",
    )
}

// What was placed, or the refusal's line.
pub fn finish(printed: Result<usize, Refusal>, out: &mut [u8]) -> usize
    ensures { Finished printed out.old result out.new × FinishedWithin printed result }
{
    match printed {
        Ok(n) => n,
        Err(refusal) => put_refusal(out, refusal),
    }
}

// Standard error, where nothing can be done if it takes no bytes: the program's name and what is wrong. Where neither has more than 100
// bytes they are one write, so that a reader gets the line whole; else its three parts are written one after the other.
#[tactic(auto, unfolding(questions::specs::Bytes::bytes))]
pub fn complain(stderr: Stderr, name: &[u8], what: &[u8]) {
    if name.len() > 100 || what.len() > 100 {
        let _ = stderr.write_all(name);
        let _ = stderr.write_all(b": ");
        let _ = stderr.write_all(what);
        return;
    }
    let mut line = [0; 202];
    let named = put_name(&mut line, 0, name);
    let end = printing::put_text(&mut line, named, what);
    let _ = stderr.write_all(&line[..end]);
}

// What is wrong, on standard error.
pub fn write_errors(stderr: Stderr, name: &[u8], refusal: Refusal, crlf: bool)
    requires { length name.now ≤ 100 }
{
    let mut lines = [0; 600];
    let n = put_errors(&mut lines, name, crlf, refusal);
    let _ = stderr.write_all(&lines[..n]);
}

// The output, on standard output.
pub fn write_output(stdout: Stdout, stderr: Stderr, name: &[u8], bytes: &[u8]) {
    if stdout.write_all(bytes).is_err() {
        complain(stderr, name, b"standard output could not be written\n");
    }
}
