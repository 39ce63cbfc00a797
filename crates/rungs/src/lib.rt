// Words and labels of ladders and lists: read, put, copied and searched; and the larger of two numbers. Past the end of a slice there is
// nothing, and nothing is written.
#![tactic(auto)]

ghost use Rattle.std.specs.Prelude.{◌≡◌, ◌+◌, ◌<◌, ◌≤◌, ◌^◌, length, max, get_or, set, replicate};
ghost use Rattle.std.proofs.lemmas.List.Edits.{sets};
ghost use Rattle.rungs.specs.Records.{look_up};
ghost use Rattle.rungs.specs.Buffers.{columns_in, buffers_in, first_columns, has_room, SameLoans};
ghost use Rattle.rungs.specs.Parts.{place_of, put_over};

// A word is its kind or op times this, and its operand.
pub const OPERANDS: u32 = 65536;

// At most 256 records.
pub const MOST_RECORDS: usize = 256;

// Words and rung records as they are lent: the words, and of the records labels, offsets and lengths, a slice each. The times entered are lent
// beside them, since a list scan sets them.
#[derive(Clone, Copy)]
pub struct Slices<'a> {
    pub words: &'a [u32],
    pub labels: &'a [u16],
    pub offsets: &'a [u32],
    pub lengths: &'a [u32],
}

// Lent buffers for words and rung records, which Read, Translate and the list reader write.
#[derive(Drop)]
pub struct Buffers<'a> {
    pub words: &'a mut [u32],
    pub labels: &'a mut [u16],
    pub offsets: &'a mut [u32],
    pub lengths: &'a mut [u32],
    pub times: &'a mut [u32],
}

impl<'a> Slices<'a> {
    // The first words, and the records of the first rungs.
    pub fn first(self, words: usize, rungs: usize) -> Slices<'a>
        requires { (words ≤ length self.words.now) × ((rungs ≤ length self.labels.now) × ((rungs ≤ length self.offsets.now)
            × (rungs ≤ length self.lengths.now))) }
        ensures { columns_in result ≡ first_columns words rungs (columns_in self.entry) }
    {
        Slices {
            words: &self.words[..words],
            labels: &self.labels[..rungs],
            offsets: &self.offsets[..rungs],
            lengths: &self.lengths[..rungs],
        }
    }
}

impl Buffers<'_> {
    // Question 13, of so many words and records.
    pub fn has_room(&self, words: usize, rungs: usize) -> bool
        ensures { result ≡ has_room (buffers_in self.now) words rungs }
    {
        words <= self.words.len()
            && rungs <= self.labels.len()
            && rungs <= self.offsets.len()
            && rungs <= self.lengths.len()
            && rungs <= self.times.len()
    }

    // Words and records over the buffers' beginnings, as far as there is room, and times of 0.
    pub fn put(&mut self, new: Slices)
        ensures put { buffers_in self.new ≡ put_over (columns_in new.entry) (buffers_in self.old) }
        ensures same { SameLoans self.old self.new }
    {
        copy_into(new.words, self.words, 0);
        copy_into(new.labels, self.labels, 0);
        copy_into(new.offsets, self.offsets, 0);
        copy_into(new.lengths, self.lengths, 0);
        put_zeros(self.times, new.labels.len());
    }
}

// What a search for a label tells (document 02, Req 03): the place of the first record that has it, if one has, and how many records were
// looked at.
#[derive(Clone, Copy, PartialEq, Eq)]
pub struct Search {
    pub place: Option<usize>,
    pub looked: usize,
}

// The item at a position, `other` past the end.
pub fn at_or<T: Copy>(items: &[T], at: usize, other: T) -> T
    ensures { result ≡ get_or items.now at other }
{
    items.get(at).copied().unwrap_or(other)
}

// One item.
pub fn put<T: Copy>(items: &mut [T], at: usize, item: T)
    ensures { items.new ≡ set items.old at item }
{
    if at < items.len() {
        items[at] = item;
    }
}

// Zeros from the start, so many.
pub fn put_zeros(words: &mut [u32], count: usize)
    ensures { words.new ≡ sets words.old 0 (replicate count 0) }
{
    let room = count.min(words.len());
    words[..room].fill(0);
}

// All items of a part, from a position on.
pub fn copy_into<T: Copy>(part: &[T], items: &mut [T], at: usize)
    requires { at + length part.now < 2 ^ 64 }
    ensures { items.new ≡ sets items.old at part.now }
{
    if items.len() <= at {
        return;
    }
    let room = part.len().min(items.len() - at);
    items[at..at + room].copy_from_slice(&part[..room]);
}

// The search for a label: up from record 0, ending at the first that has it.
pub fn search_label(labels: &[u16], label: u32) -> Search
    ensures { result ≡ look_up label labels.now }
{
    match labels.iter().position(|known| u32::from(*known) == label) {
        Some(place) => Search {
            place: Some(place),
            looked: place + 1,
        },
        None => Search {
            place: None,
            looked: labels.len(),
        },
    }
}

// Where a search ended: at the place found, or past the last record.
pub fn place_of(search: Search) -> usize
    ensures { result ≡ place_of search }
{
    search.place.unwrap_or(search.looked)
}

// The larger of two.
pub fn larger(a: usize, b: usize) -> usize
    ensures { result ≡ max a b }
{
    a.max(b)
}
