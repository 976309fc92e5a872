// The bottom-k sketch of the union as a reference window slides (the original's `BitsetBottomSketchSlideMapper`). The state stands in
// lent lists: a count word for each coordinate, twice the count of active reference items plus 1 where the hash is in the query; the
// union's bits with their summary; and by value the pivot with the shared count.
#![tactic(auto)]

pub mod lists;

ghost use Rattle.std.specs.Prelude.{◌≡◌, ℕ, ◌+◌, ◌^◌, ◌≤◌, ◌<◌, min, ltb, length, get_or};
ghost use Rattle.base.specs.Pick.{pick};
ghost use Rattle.base.specs.Lists.{hit};
ghost use Rattle.slide_mapper.specs.State.{Gathered, Blank, Ready, Inserted, Deleted, shared_bit};

use base::{Coord, Slide};

// Four count words from i on, each 0 or 1, as the bits of a number.
fn four_of(counts: &[u32], i: usize) -> u64
    requires { (i + 4 ≤ length counts.now) × ((j : ℕ) → get_or counts.now j 0 ≤ 1) }
    ensures { Gathered counts.now i (i + 4) result }
{
    u64::from(counts[i])
        | (u64::from(counts[i + 1]) << 1)
        | (u64::from(counts[i + 2]) << 2)
        | (u64::from(counts[i + 3]) << 3)
}

// The count words from `from` to `end`, each 0 or 1, as the bits of one word. Four to a turn: a turn costs more than the words it takes.
fn gathered(counts: &[u32], from: usize, end: usize) -> u64
    requires { (from ≤ end) × (end ≤ from + 64) × (end ≤ length counts.now) × ((j : ℕ) → get_or counts.now j 0 ≤ 1) }
    ensures { Gathered counts.now from end result }
{
    let mut word: u64 = 0;
    let mut i = from;
    while i + 4 <= end {
        word |= four_of(counts, i) << (i - from);
        i += 4;
    }
    for j in i..end {
        word |= u64::from(counts[j]) << (j - from);
    }
    word
}

// The state before the first item: no hash is active, so the union is the query, whose flags stand in the count words. Its bits are stored
// a word at a time, with no branch on a flag.
pub fn begin(counts: &[u32], words: &mut [u64], summary: &mut [u64]) -> Slide
    requires { Blank counts.now words.old summary.old }
    ensures { (result.shared ≡ 0) × Ready counts.now words.new summary.new result }
{
    let n = counts.len();
    for w in 0..n.div_ceil(64) {
        let from = w * 64;
        let end = (from + 64).min(n);
        summary_bits::store(words, summary, w, gathered(counts, from, end));
    }
    let last = summary_bits::prev_set_before(words, summary, Coord(n as u32)).unwrap();
    Slide {
        pivot: Coord(last as u32),
        shared: 0,
    }
}

// 1 if the hash is in the query and active, else 0: an odd count word above 1.
fn shared_bit(counts: &[u32], coord: Coord) -> u32
    requires { coord.0 < length counts.now }
    ensures { result ≡ shared_bit counts.now coord.0 }
{
    let word = counts[coord.0 as usize];
    if word < 2 { 0 } else { word % 2 }
}

// What a delete takes from a count word: one count, where there is one.
#[tactic(auto, using(std::proofs::lemmas::Bool::Decides::nat_tests), unfolding(base::specs::Pick::pick))]
fn taken(word: u32) -> u32
    ensures { result ≡ pick (ltb word 2) 0 2 }
{
    if word < 2 { 0 } else { 2 }
}

// 1 where the delete takes the hash out of the union, which is at the last count of a hash that is not in the query; else 0.
#[tactic(auto, using(std::proofs::lemmas::Bool::Decides::nat_tests), unfolding(base::specs::Lists::hit))]
fn one_if_last(word: u32) -> u64
    ensures { result ≡ hit word 2 }
{
    u64::from(word == 2)
}

// The moves over the slices: between the writes of a move the lists do not agree, and at each write through the struct the check would ask
// that they do.
fn insert_ref(
    counts: &mut [u32],
    words: &mut [u64],
    summary: &mut [u64],
    at: Slide,
    coord: Coord,
) -> Slide
    requires { Ready counts.old words.old summary.old at × (coord.0 < length counts.old) × (get_or counts.old coord.0 0 + 2 < 2 ^ 32) }
    ensures { Inserted counts.old words.old summary.old at coord.0 counts.new words.new summary.new result }
{
    let i = coord.0 as usize;
    let word = counts[i];
    counts[i] = word + 2;
    // Set also where it is set already: a test of the count is guessed wrong too often.
    summary_bits::set(words, summary, coord);
    if at.pivot.0 < coord.0 {
        return at;
    }
    if 1 < word {
        return at;
    }
    if word == 1 {
        return Slide {
            shared: at.shared + 1,
            ..at
        };
    }
    // Tested before the pivot moves: the old pivot leaves the k smallest.
    let lost = shared_bit(counts, at.pivot);
    let before = summary_bits::prev_set_before(words, summary, at.pivot).unwrap();
    Slide {
        pivot: Coord(before as u32),
        shared: at.shared - lost,
    }
}

fn delete_ref(
    counts: &mut [u32],
    words: &mut [u64],
    summary: &mut [u64],
    at: Slide,
    coord: Coord,
) -> Slide
    requires { Ready counts.old words.old summary.old at × (coord.0 < length counts.old) }
    ensures { Deleted counts.old words.old summary.old at coord.0 counts.new words.new summary.new result }
{
    let i = coord.0 as usize;
    let word = counts[i];
    counts[i] = word - taken(word);
    // By a number and with no branch, as the bit of an insert.
    summary_bits::clear_if(words, summary, coord, one_if_last(word));
    if at.pivot.0 < coord.0 {
        return at;
    }
    if word < 2 {
        return at;
    }
    if 3 < word {
        return at;
    }
    if word == 3 {
        return Slide {
            shared: at.shared - 1,
            ..at
        };
    }
    let after = summary_bits::next_set_after(words, summary, at.pivot).unwrap();
    let next = Coord(after as u32);
    let won = shared_bit(counts, next);
    Slide {
        pivot: next,
        shared: at.shared + won,
    }
}
