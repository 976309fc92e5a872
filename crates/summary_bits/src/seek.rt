// The set as it is searched.
ghost use Rattle.std.specs.Prelude.{ℕ, ◌^◌, ◌<◌, get_or};
ghost use Rattle.summary_bits.specs.Summary.{Fits, Summary};
ghost use Rattle.summary_bits.specs.Props.{Summary-prop};

use crate::{highest_in, lowest_in};
use base::Coord;

#[derive(Clone, Copy)]
pub struct BitSet<'w, 's> {
    pub words: &'w [u64],
    pub summary: &'s [u64],
    ghost fits: { Fits words.now summary.now },
    ghost summed: { Summary words.now summary.now } by { Summary-prop words.now summary.now },
    ghost words_fit: { (i : ℕ) → get_or words.now i 0 < 2 ^ 64 },
    ghost summary_fits: { (i : ℕ) → get_or summary.now i 0 < 2 ^ 64 },
}

impl BitSet<'_, '_> {
    ghost use Rattle.std.specs.Prelude.{◌*◌, ◌+◌, ◌≤◌, length};
    ghost use Rattle.summary_bits.specs.Bits.{bit_at};
    ghost use Rattle.summary_bits.specs.Nearest.{Prev, Next};

    // The nearest set bit before a block of 64 words: a block has one summary word.
    fn before_block(self, block: usize) -> Option<usize>
        requires { block ≤ length self.summary.now }
        ensures { Prev (bit_at self.entry.words.now) (block * 64 * 64) result }
    {
        for at in (0..block).rev() {
            if self.summary[at] != 0 {
                return Some(highest_in(self.words, highest_in(self.summary, at)));
            }
        }
        None
    }

    // The nearest set bit before word `w`. The shift drops the summary bits of `w` and the words after it, so that the count of leading
    // zeros is the way down from the word before `w`.
    fn before_word(self, w: usize) -> Option<usize>
        requires { w ≤ length self.words.now }
        ensures { Prev (bit_at self.entry.words.now) (w * 64) result }
    {
        if w == 0 {
            return None;
        }
        let last = w - 1;
        let low = self.summary[last / 64] << (63 - last % 64);
        if low != 0 {
            return Some(highest_in(self.words, last - u64::leading_zeros(low) as usize));
        }
        self.before_block(last / 64)
    }

    // The nearest set bit strictly before the coordinate.
    pub fn before(self, coord: Coord) -> Option<usize>
        requires { coord.0 ≤ length self.words.now * 64 }
        ensures { Prev (bit_at self.entry.words.now) coord.0 result }
    {
        let index = coord.0 as usize;
        if index == 0 {
            return None;
        }
        let last = index - 1;
        let low = self.words[last / 64] << (63 - last % 64);
        if low != 0 {
            return Some(last - u64::leading_zeros(low) as usize);
        }
        self.before_word(last / 64)
    }

    // The nearest set bit from a block of 64 words on.
    fn from_block(self, block: usize) -> Option<usize>
        ensures { Next (bit_at self.entry.words.now) (block * 64 * 64) result }
    {
        for at in block..self.summary.len() {
            if self.summary[at] != 0 {
                return Some(lowest_in(self.words, lowest_in(self.summary, at)));
            }
        }
        None
    }

    // The nearest set bit from word `w` on. The shift drops the summary bits of the words before `w`.
    fn from_word(self, w: usize) -> Option<usize>
        ensures { Next (bit_at self.entry.words.now) (w * 64) result }
    {
        if self.words.len() <= w {
            return None;
        }
        let high = self.summary[w / 64] >> (w % 64);
        if high != 0 {
            return Some(lowest_in(self.words, w + u64::trailing_zeros(high) as usize));
        }
        self.from_block(w / 64 + 1)
    }

    // The nearest set bit strictly after the coordinate.
    pub fn after(self, coord: Coord) -> Option<usize>
        ensures { Next (bit_at self.entry.words.now) (coord.0 + 1) result }
    {
        let first = coord.0 as usize + 1;
        let w = first / 64;
        if self.words.len() <= w {
            return None;
        }
        let high = self.words[w] >> (first % 64);
        if high != 0 {
            return Some(first + u64::trailing_zeros(high) as usize);
        }
        self.from_word(w + 1)
    }
}
