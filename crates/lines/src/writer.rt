// Bytes that are written from the front of an array: words, decimal numbers and hex digits. std's formatting is no use here, since its clauses say what is written where
// it answers `Ok`, and never that it does.
ghost use Rattle.std.specs.Prelude.{◌≡◌, ◌+◌, ◌≤◌, ◌<◌, length, get_or};
ghost use Rattle.rules.specs.Lines.{hex_digit};
ghost use Rattle.lines.specs.Written.{radix, digit_count};

use crate::Told;
use base::{Outcome, Place, Stats};

// The byte of a digit, lower case.
#[tactic(auto, unfolding(rules::specs::Lines::hex_digit, base::specs::Pick::pick))]
fn digit(d: u64) -> u8
    requires { d < 16 }
    ensures { result ≡ hex_digit d }
{
    let d = d as u8;
    if d < 10 { b'0' + d } else { b'a' + (d - 10) }
}

// Fills a part with the last digits of a number, from the last. By index: what is written through an iterator is not known to the proof
// afterwards.
fn fill_digits(out: &mut [u8], base: u64, n: u64)
    requires { (1 < base) × (base ≤ 16) }
    ensures { out.new ≡ radix base (length out.old) n }
{
    let count = out.len();
    let mut m = n;
    for done in 0..count {
        out[count - 1 - done] = digit(m % base);
        m /= base;
    }
}

// How many decimal digits a number has.
fn decimal_count(n: u64) -> usize
    ensures count { result ≡ digit_count 20 n }
    ensures few { result ≤ 20 }
{
    let mut m = n;
    for count in 1..20 {
        if m < 10 {
            return count;
        }
        m /= 10;
    }
    20
}

// The entry at an index; 0 past the end.
fn entry_at(list: &[u64], i: usize) -> u64
    ensures { result ≡ get_or list.now i 0 }
{
    list.get(i).copied().unwrap_or(0)
}

// What is written so far stands at the front, up to `at`.
#[derive(Drop)]
pub struct Writer<'a> {
    pub out: &'a mut [u8],
    pub at: usize,
}

impl Writer<'_> {
    ghost use Rattle.std.specs.Prelude.{[], ◌++◌, ◌*◌, map};
    ghost use Rattle.rules.specs.Text.{text};
    ghost use Rattle.rules.specs.Lines.{decimal, hex, line, counts_line, refused_line, mapped_line};
    ghost use Rattle.lines.specs.Written.{Wrote, bits_line, lines_by};

    fn word(&mut self, bytes: &[u8])
        requires { self.old.at + length bytes.now ≤ length self.old.out.now }
        ensures { Wrote bytes.now self.old self.new }
    {
        let end = self.at + bytes.len();
        self.out[self.at..end].copy_from_slice(bytes);
        self.at = end;
    }

    // The last `count` digits of a number.
    fn digits(&mut self, count: usize, base: u64, n: u64)
        requires room { self.old.at + count ≤ length self.old.out.now }
        requires base { (1 < base) × (base ≤ 16) }
        ensures { Wrote (radix base count n) self.old self.new }
    {
        let end = self.at + count;
        fill_digits(&mut self.out[self.at..end], base, n);
        self.at = end;
    }

    // A space, and a number in decimal.
    fn number(&mut self, n: u64)
        requires { self.old.at + 21 ≤ length self.old.out.now }
        ensures wrote { Wrote (text " " ++ decimal n) self.old self.new }
        ensures short { self.new.at ≤ self.old.at + 21 }
    {
        self.word(b" ");
        self.digits(decimal_count(n), 10, n);
    }

    // A space, and 64 bits as 16 hex digits.
    fn bits(&mut self, n: u64)
        requires { self.old.at + 17 ≤ length self.old.out.now }
        ensures wrote { Wrote (text " " ++ hex 16 n) self.old self.new }
        ensures long { self.new.at ≡ self.old.at + 17 }
    {
        self.word(b" ");
        self.digits(16, 16, n);
    }

    // A word and numbers.
    fn line(&mut self, word: &[u8], numbers: &[u64])
        requires { self.old.at + (length word.now + (21 * length numbers.now + 1)) ≤ length self.old.out.now }
        ensures wrote { Wrote (line word.now (map decimal numbers.now)) self.old self.new }
        ensures short { self.new.at ≤ self.old.at + (length word.now + (21 * length numbers.now + 1)) }
    {
        self.word(word);
        for number in numbers {
            self.number(*number);
        }
        self.word(b"\n");
    }

    // What was counted: 70 bytes at most.
    fn counts_line(&mut self, stats: Stats)
        requires { self.old.at + 70 ≤ length self.old.out.now }
        ensures { Wrote (counts_line stats) self.old self.new }
    {
        let items = u64::from(stats.items);
        let coords = u64::from(stats.coords);
        self.line(b"counts", &[stats.windows, coords, items]);
    }

    // A refusal: its number and its place.
    pub fn refused_line(&mut self, refusal: Told)
        requires { self.old.at + 50 ≤ length self.old.out.now }
        ensures { Wrote (refused_line refusal.number refusal.place) self.old self.new }
    {
        let number = u64::from(refusal.number);
        let place = u64::from(refusal.place);
        self.line(b"refused", &[number, place]);
    }

    // The bits of an estimate, identity first.
    fn identity_line(&mut self, identity: u64, upper: u64)
        requires { self.old.at + 43 ≤ length self.old.out.now }
        ensures wrote { Wrote (bits_line identity upper) self.old self.new }
        ensures long { self.new.at ≡ self.old.at + 43 }
    {
        self.word(b"identity");
        self.bits(identity);
        self.bits(upper);
        self.word(b"\n");
    }

    // None: `none` and the counts.
    pub fn none_lines(&mut self, stats: Stats)
        requires { self.old.at + 75 ≤ length self.old.out.now }
        ensures { Wrote (line (text "none") [] ++ counts_line stats) self.old self.new }
    {
        self.line(b"none", &[]);
        self.counts_line(stats);
    }

    // A place: three lines.
    fn placed_lines(&mut self, place: Place, stats: Stats, identity: u64, upper: u64)
        requires { self.old.at + 204 ≤ length self.old.out.now }
        ensures { Wrote (mapped_line place ++ (bits_line identity upper ++ counts_line stats)) self.old self.new }
    {
        let shared = u64::from(place.shared);
        let size = u64::from(place.size);
        self.line(b"mapped", &[place.start.0, place.end.0, shared, size]);
        self.identity_line(identity, upper);
        self.counts_line(stats);
    }

    // The lines of an answer.
    pub fn answer_lines(
        &mut self,
        answer: Result<Outcome, Told>,
        identities: &[u64],
        uppers: &[u64],
    )
        requires { self.old.at + 204 ≤ length self.old.out.now }
        ensures { Wrote (lines_by identities.now uppers.now answer) self.old self.new }
    {
        match answer {
            Err(refusal) => self.refused_line(refusal),
            Ok(outcome) => match outcome.place {
                None => self.none_lines(outcome.stats),
                Some(place) => {
                    let shared = place.shared as usize;
                    let identity = entry_at(identities, shared);
                    let upper = entry_at(uppers, shared);
                    self.placed_lines(place, outcome.stats, identity, upper);
                }
            },
        }
    }
}
