// Rung records in one lent row. Document 01: "Rung records lie side by side in one lent row: label (16 bits), offset and length (32 bits
// each)." 02, Req 04: "The rung record gets a fourth field of 32 bits, the times entered." The contracts speak of a row's records as those
// of the other crates do (rungs, Records), and of its times as a row of numbers beside them.
#![tactic(auto)]

ghost use Rattle.std.specs.Prelude.{◌≡◌, ◌<◌, ◌≤◌, length, take};
ghost use Rattle.rungs.specs.Records.{labels, look_up, most_records, none_entered};
ghost use Rattle.rungs.specs.Buffers.{written};
ghost use Rattle.rows.specs.Rows.{records_of, times_of};
ghost use Rattle.rows.specs.Parts.{gathered, scattered, times_put};

use rungs::{MOST_RECORDS, Search, Slices};

#[derive(Clone, Copy)]
pub struct Rung {
    pub label: u16,
    pub offset: u32,
    pub length: u32,
    pub times: u32,
}

// The fields of a row's first records, no more than question 5 and question 10 take, of the `n` that were lent. Arrays with a count
// beside: the memory is fixed, and there is no heap. Times are not gathered (02, Req 04: "Any value is taken").
#[derive(Clone, Copy)]
pub struct Rows {
    pub labels: [u16; MOST_RECORDS],
    pub offsets: [u32; MOST_RECORDS],
    pub lengths: [u32; MOST_RECORDS],
    pub n: usize,
}

impl Rows {
    // The records of a row of no more than 256, with the words that they count.
    pub fn slices<'a>(&'a self, words: &'a [u32]) -> Slices<'a>
        requires { self.now.n ≤ most_records }
        ensures words { result.words.now ≡ words.now }
        ensures labels { result.labels.now ≡ take self.now.n self.now.labels }
        ensures offsets { result.offsets.now ≡ take self.now.n self.now.offsets }
        ensures lengths { result.lengths.now ≡ take self.now.n self.now.lengths }
    {
        Slices {
            words,
            labels: &self.labels[..self.n],
            offsets: &self.offsets[..self.n],
            lengths: &self.lengths[..self.n],
        }
    }
}

// The search for a label: up from record 0, ending at the first that has it.
pub fn look_up(row: &[Rung], label: u32) -> Search
    ensures { result ≡ look_up label (labels (records_of row.now)) }
{
    match row.iter().position(|rung| u32::from(rung.label) == label) {
        Some(place) => Search {
            place: Some(place),
            looked: place + 1,
        },
        None => Search {
            place: None,
            looked: row.len(),
        },
    }
}

// The fields of the first 256 records.
pub fn gather(row: &[Rung]) -> Rows
    ensures fields { result ≡ gathered (records_of row.now) }
    ensures lent { result.n ≡ length row.now }
{
    let mut labels = [0; MOST_RECORDS];
    let mut offsets = [0; MOST_RECORDS];
    let mut lengths = [0; MOST_RECORDS];
    let kept = MOST_RECORDS.min(row.len());
    for (i, rung) in row[..kept].iter().enumerate() {
        labels[i] = rung.label;
        offsets[i] = rung.offset;
        lengths[i] = rung.length;
    }
    Rows {
        labels,
        offsets,
        lengths,
        n: row.len(),
    }
}

// The first `n` records of the arrays, from the start of the row; the rest stays. None has been entered (02, Req 04: "calls that write
// records put 0").
pub fn scatter(row: &mut [Rung], rows: &Rows, n: usize)
    requires { (n ≤ most_records) × (n ≤ length row.old) }
    ensures { (records_of row.new ≡ scattered n rows.now (records_of row.old))
        × (times_of row.new ≡ written (none_entered n) (times_of row.old)) }
{
    for i in 0..n {
        row[i] = Rung {
            label: rows.labels[i],
            offset: rows.offsets[i],
            length: rows.lengths[i],
            times: 0,
        };
    }
}

// The times of the first records, each stored in place; the rest of each record and of the row stays.
pub fn put_times(row: &mut [Rung], times: &[u32])
    requires { length times.now ≤ length row.old }
    ensures { (records_of row.new ≡ records_of row.old)
        × (times_of row.new ≡ times_put (length times.now) times.now (times_of row.old)) }
{
    for (i, time) in times.iter().enumerate() {
        row[i].times = *time;
    }
}
