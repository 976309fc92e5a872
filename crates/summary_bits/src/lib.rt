// A set of coordinate numbers: bit i of the words is 1 where i is in the set. The summary has a bit for each word, 1 exactly where
// the word is not 0, so that a search which finds nothing in its own word passes over 64 empty words at a time.
// What writes takes the two slices: the mapper lends them beside its counts, and a struct of structs that hold `&mut` tells its maker nothing of
// them afterwards. Searches down and up are written apart: they differ in each line.
#![tactic(auto)]

mod seek;

ghost use Rattle.std.specs.Prelude.{◌≡◌, ◌*◌, ◌+◌, ◌^◌, ◌<◌, ◌≤◌, eqb, length, get_or, set};
ghost use Rattle.base.specs.Pick.{pick};
ghost use Rattle.base.specs.Nearest.{LastBelow, FirstFrom};
ghost use Rattle.summary_bits.specs.Bits.{bit_at, with_on, with_off};
ghost use Rattle.summary_bits.specs.Summary.{Fits, Summary, raised, lowered};
ghost use Rattle.summary_bits.specs.Nearest.{Prev, Next};

use base::Coord;
use seek::BitSet;

// The summary is written only where the word was 0, as in the original: sets that follow each other would otherwise
// wait for one summary word.
pub fn set(words: &mut [u64], summary: &mut [u64], coord: Coord)
    requires { Fits words.old summary.old × (coord.0 < length words.old * 64) }
    ensures { (words.new ≡ with_on words.old coord.0) × (summary.new ≡ raised words.old summary.old coord.0) }
{
    // Divided before it is widened: else the compiler makes a shift and a mask of the address, an instruction more before the load.
    let w = (coord.0 / 64) as usize;
    let old = words[w];
    words[w] = old | (1u64 << (coord.0 % 64));
    if old == 0 {
        let s = w / 64;
        summary[s] |= 1u64 << (w % 64);
    }
}

// The summary is written only where its bit is on: where most words are empty already, clears that follow each other would else wait for
// one summary word. The word is stored in each branch, so that a loop over clears is as fast wherever its code lies.
pub fn clear(words: &mut [u64], summary: &mut [u64], coord: Coord)
    requires { Fits words.old summary.old × (coord.0 < length words.old * 64) }
    ensures { (words.new ≡ with_off words.old coord.0) × (summary.new ≡ lowered words.old summary.old coord.0) }
{
    let w = (coord.0 / 64) as usize;
    let left = words[w] & !(1u64 << (coord.0 % 64));
    if left != 0 {
        words[w] = left;
    } else {
        words[w] = 0;
        let s = w / 64;
        let held = summary[s];
        let bit = 1u64 << (w % 64);
        if held & bit != 0 {
            summary[s] = held & !bit;
        }
    }
}

// Clears the bit where `one` is 1, and changes nothing where it is 0: for a caller whose test would be guessed wrong too often to branch on.
pub fn clear_if(words: &mut [u64], summary: &mut [u64], coord: Coord, one: u64)
    requires { Fits words.old summary.old × Summary words.old summary.old × (coord.0 < length words.old * 64) × (one ≤ 1) }
    ensures { (words.new ≡ pick (eqb one 1) (with_off words.old coord.0) words.old) × (summary.new ≡ pick (eqb one 1) (lowered words.old summary.old coord.0) summary.old) }
{
    let w = (coord.0 / 64) as usize;
    let left = words[w] & !(one << (coord.0 % 64));
    words[w] = left;
    if left == 0 {
        let block = w / 64;
        summary[block] &= !(1u64 << (w % 64));
    }
}

// Stores word `w`, the bits of 64 coordinates at once, where none of them was set.
pub fn store(words: &mut [u64], summary: &mut [u64], w: usize, word: u64)
    requires { Fits words.old summary.old × (w < length words.old) }
    ensures { (words.new ≡ set words.old w word) × (summary.new ≡ pick (eqb word 0) summary.old (with_on summary.old w)) }
{
    words[w] = word;
    if word != 0 {
        let s = w / 64;
        summary[s] |= 1u64 << (w % 64);
    }
}

// The highest set bit of word `j`, which is not 0.
fn highest_in(words: &[u64], j: usize) -> usize
    requires { (j < length words.now) × (j < 2 ^ 26) × (0 < get_or words.now j 0) }
    ensures { LastBelow (bit_at words.now) (j * 64 + 64) result }
{
    j * 64 + 63 - u64::leading_zeros(words[j]) as usize
}

// The lowest set bit of word `j`, which is not 0.
fn lowest_in(words: &[u64], j: usize) -> usize
    requires { (j < length words.now) × (j < 2 ^ 26) × (0 < get_or words.now j 0) }
    ensures { FirstFrom (bit_at words.now) (j * 64) result }
{
    j * 64 + u64::trailing_zeros(words[j]) as usize
}

// The nearest set bit strictly before the coordinate.
pub fn prev_set_before(words: &[u64], summary: &[u64], coord: Coord) -> Option<usize>
    requires { Fits words.now summary.now × Summary words.now summary.now × (coord.0 ≤ length words.now * 64) }
    ensures { Prev (bit_at words.now) coord.0 result }
{
    BitSet { words, summary }.before(coord)
}

// The nearest set bit strictly after the coordinate.
pub fn next_set_after(words: &[u64], summary: &[u64], coord: Coord) -> Option<usize>
    requires { Fits words.now summary.now × Summary words.now summary.now }
    ensures { Next (bit_at words.now) (coord.0 + 1) result }
{
    BitSet { words, summary }.after(coord)
}
