// The line of ladder-scan's report with the variables that no contact reads. README, "ladder-scan"; document 02, Req 07.
#![tactic(auto)]

ghost use Rattle.std.specs.Prelude.{◌≡◌, ◌++◌, ◌≤◌, length};
ghost use Rattle.questions.specs.Bytes.{bytes, decimal};
ghost use Rattle.questions.specs.Questions.{most_variables};
ghost use Rattle.printing.specs.Put.{Put};
ghost use Rattle.noninterference.specs.Contacts.{is_contact, word_contact, word_contacts, left_out};
ghost use Rattle.program_definitions.specs.Scanout.{variable_names, unread_line};
ghost use Rattle.program_scan_unread.specs.Marks.{marked, unmarked};

use ladder_kinds::KindSort;
use questions::MOST_VARIABLES;
use rungs::OPERANDS;

#[tactic(auto, unfolding(noninterference::specs::Contacts::is_contact, ladder_kinds::specs::Kinds::sort_in, ladder_kinds::specs::Kinds::case_sort))]
fn is_contact(kind: u32) -> bool
    ensures { result ≡ is_contact kind }
{
    matches!(ladder_kinds::sort_of(kind), Some(KindSort::Contact))
}

// Marks the variable of a word that is a contact's.
fn mark_word(word: u32, marks: &mut [u8])
    ensures { marks.new ≡ marked (word_contact word) marks.old }
{
    if is_contact(word / OPERANDS) {
        rungs::put(marks, (word % OPERANDS) as usize, 1);
    }
}

// Marks the variables that contacts name.
fn mark_contacts(words: &[u32], marks: &mut [u8])
    ensures { marks.new ≡ marked (word_contacts words.now) marks.old }
{
    for word in words {
        mark_word(*word, marks);
    }
}

fn put_name(out: &mut [u8], at: usize, variable: usize) -> usize
    requires { at ≤ 200000 }
    ensures { Put out.old at (bytes " v" ++ decimal variable) result out.new }
{
    let name = printing::put_text(out, at, b" v");
    printing::put_number(out, name, variable)
}

// The names of the variables without a mark.
fn put_names(out: &mut [u8], from: usize, marks: &[u8]) -> usize
    requires { (from ≤ 160000) × (length marks.now ≤ most_variables) }
    ensures { Put out.old from (variable_names (unmarked 0 marks.now)) result out.new }
{
    let mut end = from;
    for (variable, mark) in marks.iter().enumerate() {
        let unnamed = *mark == 0;
        if unnamed {
            end = put_name(out, end, variable);
        }
    }
    end
}

// The line: the first `vars` variables that no contact among the words names.
pub fn put_unread(out: &mut [u8], from: usize, vars: u32, words: &[u32]) -> usize
    requires { (from ≤ 150000) × (vars ≤ most_variables) }
    ensures { Put out.old from (unread_line (left_out (word_contacts words.now) 0 vars)) result out.new
        × (result ≤ 160000) }
{
    let mut marks = [0u8; MOST_VARIABLES as usize];
    mark_contacts(words, &mut marks);
    let head = printing::put_text(out, from, b"unread");
    let names = put_names(out, head, &marks[..vars as usize]);
    printing::put_text(out, names, b"\n")
}
