// The search for a label (request 6).
use rungs::Search;
use test_requests::input::{Bad, Input};
use test_requests::output::Output;

fn put_search(output: &mut Output, answer: Search) {
    match answer.place {
        Some(place) => output.put(format_args!("1 {place} {}", answer.looked)),
        None => output.put(format_args!("2 {}", answer.looked)),
    }
}

// Searches the labels that were read for one, and puts the last answer.
fn answer_search(output: &mut Output, labels: &[u16], label: u32, turns: u32) {
    let mut answer = Search {
        place: None,
        looked: 0,
    };
    for _ in 0..turns {
        answer = rungs::search_label(labels, label);
    }
    put_search(output, answer);
    output.byte(b'\n');
}

// The search, from the number after the request's on.
pub fn answer(input: &mut Input, output: &mut Output, turns: u32) -> Result<(), Bad> {
    let records = input.records()?;
    let label = input.next()?;
    input.line_end()?;
    answer_search(output, &records.labels[..records.count.value], label, turns);
    Ok(())
}
