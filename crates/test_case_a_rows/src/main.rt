// Runs document 01's case A, and then a ladder with set and reset coils and one with timers, through the calls over rows: this program
// owns two rows of rung records, the ladder's and the list's, and lends them. It prints what each call answered, the variables, the times
// entered (document 02, Req 04) and the timer records (Req 06) that each scan left, and the listing, with the fixed names. Then it lends
// rows of 300 records, which the calls refuse: 5, or 4 where the last record does not fit; List scan 10; both scans 16 with 33 timer
// records (Req 06); Listing 10, or 14 with a name table of zeros (Req 05). Last it searches a row of 300 records for labels.
#![tactic(auto)]

use rows::Rung;
use test_requests::output::Output;
use test_row_output::VARS;

// "A* `10:c0|c1&n2>o1|c3&j20` `20:n3>o4`, V 5, only v0 true": it has as many kept words as instructions, and so have the other ladders.
const WORDS: usize = 12;

const RUNGS: usize = 2;

const TABLE_BYTES: usize = 37;

const LISTING_BYTES: usize = 200;

const RUNG_WATCHDOG: u32 = 2;

const INSTRUCTION_WATCHDOG: u32 = 20;

// Two timer records, each preset, start, variable, running and done. With power at the tick the first is done, without power the other's
// flags clear.
const TIMER_NUMBERS: usize = 10;

const TIMERS: [u32; TIMER_NUMBERS] = [3, 5, 1, 1, 0, 4, 1, 2, 1, 1];

const TICK: u32 = 8;

// 33 timer records: one more than question 16 takes.
const MANY_TIMER_NUMBERS: usize = 165;

// A row of more records than questions 5 and 10 take, and its words, two to a record.
const LONG_RUNGS: usize = 300;

const LONG_WORDS: usize = 600;

// Two places with one label.
const TWICE: u16 = 100;

const AGAIN: usize = 200;

// As kept words a contact v0 and a coil v1, as instructions LD v0 and AND v1.
const CONTACT: u32 = 65536;

const COIL: u32 = 327681;

// Times entered of records that no call has written yet. 02, Req 04: "Any value is taken".
const TIMES: u32 = 7;

const LONG_TIMES: u32 = 9;

const NO_RUNG: Rung = Rung {
    label: 0,
    offset: 0,
    length: 0,
    times: TIMES,
};

// Ladder scan with only v0 true: puts what it answered, and the variables.
fn scan_ladder(output: &mut Output, words: &[u32], row: &[Rung], timers: &mut [u32]) {
    let mut table = [0; TABLE_BYTES];
    table[0] = 1;
    let answer = ladder_rows::ladder_scan(
        VARS,
        words,
        row,
        &mut table,
        timers,
        TICK,
        RUNG_WATCHDOG,
    );
    test_row_output::put_ladder_scan(output, answer, &table);
}

// The same of List scan.
fn scan_list(output: &mut Output, code: &[u32], row: &mut [Rung], timers: &mut [u32]) {
    let mut table = [0; TABLE_BYTES];
    table[0] = 1;
    let answer = list_rows::list_scan(
        VARS,
        code,
        row,
        &mut table,
        timers,
        TICK,
        INSTRUCTION_WATCHDOG,
    );
    test_row_output::put_list_scan(output, answer, &table);
}

fn list(output: &mut Output, code: &[u32], row: &[Rung], names: &[u8]) {
    let mut lines = [0; LISTING_BYTES];
    let answer = list_rows::listing(VARS, code, row, names, &mut lines);
    test_row_output::put_listed(output, answer, &lines);
}

// The times entered of a row's first and last record.
fn put_times(output: &mut Output, row: &[Rung]) {
    if let [first, .., last] = row {
        output.put(format_args!("\ntimes {} {}", first.times, last.times));
    }
}

// The five calls on a text, over two rows of this function's own. The ladder's row has Read's times, which no scan has changed.
fn put_case(output: &mut Output, names: &[u8], text: &[u8]) {
    let mut words = [0; WORDS];
    let mut row = [NO_RUNG; RUNGS];
    let mut code = [0; WORDS];
    let mut code_row = [NO_RUNG; RUNGS];
    let mut ladder_timers = TIMERS;
    let mut list_timers = TIMERS;
    let read = text_rows::read(VARS, text, &mut words, &mut row);
    test_row_output::put_read(output, read);
    let translated = translation_rows::translate(VARS, &words, &row, &mut code, &mut code_row);
    test_row_output::put_translated(output, translated);
    scan_ladder(output, &words, &row, &mut ladder_timers);
    put_times(output, &row);
    test_row_output::put_timers(output, &ladder_timers);
    scan_list(output, &code, &mut code_row, &mut list_timers);
    put_times(output, &code_row);
    test_row_output::put_timers(output, &list_timers);
    list(output, &code, &code_row, names);
}

fn long_words() -> [u32; LONG_WORDS] {
    let mut words = [CONTACT; LONG_WORDS];
    for word in words.iter_mut().skip(1).step_by(2) {
        *word = COIL;
    }
    words
}

// 300 records of two words each, but for the last, which has the length `last`.
fn long_row(last: u32) -> [Rung; LONG_RUNGS] {
    let mut row = [Rung {
        label: 0,
        offset: 0,
        length: 2,
        times: LONG_TIMES,
    }; LONG_RUNGS];
    for (at, rung) in row.iter_mut().enumerate() {
        rung.label = at as u16;
        rung.offset = 2 * at as u32;
    }
    row[LONG_RUNGS - 1].length = last;
    row
}

// Four of the calls, over one row of 300 records: the words are a ladder, and a list. Translate writes into a copy of the row. A refused
// List scan leaves the times as they were.
fn put_long(
    output: &mut Output,
    last: u32,
    ladder_timers: &mut [u32],
    list_timers: &mut [u32],
    names: &[u8],
) {
    let timers = ladder_timers.len() / 5;
    output.put(format_args!("300 records, the last of length {last}, timers {timers}"));
    let words = long_words();
    let mut row = long_row(last);
    let mut code = [0; WORDS];
    let mut code_row = row;
    let translated = translation_rows::translate(VARS, &words, &row, &mut code, &mut code_row);
    test_row_output::put_translated(output, translated);
    scan_ladder(output, &words, &row, ladder_timers);
    scan_list(output, &words, &mut row, list_timers);
    put_times(output, &row);
    list(output, &words, &row, names);
}

// Case A, and the ladders with set and reset coils and with timers.
fn put_cases(output: &mut Output, names: &[u8]) {
    put_case(output, names, b"10:c0|c1&n2>o1|c3&j20\n20:n3>o4\n");
    put_case(output, names, b"10:c0|c1&n2>s1|c3&r4\n20:n3>r0\n");
    put_case(output, names, b"10:c0|c1&n2>t0|c3&t1\n20:n3>o4\n");
}

// Rows of 300 records with two timer records, the other row with a name table of zeros.
fn put_refused(output: &mut Output, names: &[u8], zeros: &[u8]) {
    let mut ladder_timers = TIMERS;
    let mut list_timers = TIMERS;
    put_long(output, 2, &mut ladder_timers, &mut list_timers, names);
    put_long(output, 1, &mut ladder_timers, &mut list_timers, zeros);
}

// A row of 300 records with 33 timer records.
fn put_many_timers(output: &mut Output, names: &[u8]) {
    let mut ladder_timers = [0; MANY_TIMER_NUMBERS];
    let mut list_timers = [0; MANY_TIMER_NUMBERS];
    put_long(output, 1, &mut ladder_timers, &mut list_timers, names);
}

// The searches over a row of 300 records, of which two have one label: for the first record's label, the one that two have, the last
// record's, and one that none has.
fn put_searches(output: &mut Output) {
    let mut row = long_row(2);
    row[AGAIN].label = TWICE;
    for label in [0, u32::from(TWICE), LONG_RUNGS as u32 - 1, AGAIN as u32] {
        test_row_output::put_search(output, label, rows::look_up(&row, label));
        output.byte(b'\n');
    }
}

fn main(rt: HostRuntime) {
    let mut output = Output::new(rt.stdout());
    let zeros = [0; list_names::TABLE_BYTES];
    let mut names = zeros;
    list_names::put_fixed_names(&mut names);
    put_cases(&mut output, &names);
    put_refused(&mut output, &names, &zeros);
    put_many_timers(&mut output, &names);
    put_searches(&mut output);
    output.flush();
}
