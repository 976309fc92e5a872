// A record's words, as numbers and as lists of a call's width.
ghost use Rattle.std.specs.Prelude.{◌≡◌, ◌≤◌, ◌++◌, length, drop, nat_eq, Some, IfOk, IsOk, MatchResult, IfSome, ◌%◌, IsTrue, [], ◌∷◌, slice_get, ◌↔◌};
ghost use Rattle.std.specs.List.{starts_with};
ghost use Rattle.base.specs.Verdicts.{number_of};

use base::Refusal;
use std::io;
use std::num::TryFromIntError;

// No list of a record and no list lent to a call has more elements than this.
pub const MOST: usize = 8192;

// Why a replay fails.
#[derive(Clone, Copy, PartialEq, Eq, Debug)]
pub enum Fault {
    // The file ends, a word or a list is not there, or one does not fit.
    Malformed,
    // The call did something else than the record says.
    Differs,
}

impl Fault {
    // What a replay answers: fine where all that the record says is so.
    pub fn unless(held: bool) -> Result<(), Fault>
        ensures { IsOk result ↔ IsTrue held }
    {
        held.then_some(()).ok_or(Fault::Differs)
    }
}

impl From<io::Error> for Fault {
    fn from(_error: io::Error) -> Fault {
        Fault::Malformed
    }
}

impl From<TryFromIntError> for Fault {
    fn from(_error: TryFromIntError) -> Fault {
        Fault::Malformed
    }
}

// An element of a list, which has a word of its own.
pub trait Element: Copy {
    fn from_word(word: u64) -> Option<Self>;
}

impl Element for u8 {
    fn from_word(word: u64) -> Option<u8> {
        u8::try_from(word).ok()
    }
}

impl Element for u32 {
    fn from_word(word: u64) -> Option<u32> {
        u32::try_from(word).ok()
    }
}

impl Element for f64 {
    fn from_word(word: u64) -> Option<f64> {
        Some(float_bits::float_of(word))
    }
}

// What a call is told, what it is lent, and what it is to answer. The first word is the length, this one counted.
#[derive(Clone, Copy)]
pub struct Record<'a> {
    pub words: &'a [u64],
}

impl<'a> Record<'a> {
    // Word i.
    pub fn word(self, i: usize) -> Result<u64, Fault>
        ensures { MatchResult result (λ word. slice_get self.entry.words.now i ≡ Some word) (λ _. length self.entry.words.now ≤ i) }
    {
        self.words.get(i).copied().ok_or(Fault::Malformed)
    }

    // Word i as a number of 32 bits, which it is in every file; of a larger word the lower half.
    pub fn number(self, i: usize) -> Result<u32, Fault>
        ensures { MatchResult result (λ number. IfSome (slice_get self.entry.words.now i) (λ word. number ≡ word % 4294967296)) (λ _. length self.entry.words.now ≤ i) }
    {
        Ok((self.word(i)? % (1 << 32)) as u32)
    }

    // Word i as the size of a list.
    pub fn size(self, i: usize) -> Result<usize, Fault>
        ensures told { IfOk result (λ n. slice_get self.entry.words.now i ≡ Some n) }
        ensures bounded { IfOk result (λ n. n ≤ MOST) }
    {
        let size = self.word(i)?;
        if size <= MOST as u64 {
            Ok(size as usize)
        } else {
            Err(Fault::Malformed)
        }
    }

    // Whether these are the words from `at` on. Behind them there may be others.
    pub fn says(self, at: usize, words: &[u64]) -> bool
        ensures { IsTrue result → IsTrue (starts_with nat_eq (drop at self.entry.words.now) words.now) }
    {
        self.words
            .get(at..)
            .is_some_and(|rest| rest.starts_with(words))
    }

    // Whether the words from `at` on are this refusal's number and place.
    pub fn refuses(self, at: usize, refusal: Refusal) -> bool
        ensures { IsTrue result → IsTrue (starts_with nat_eq (drop at self.entry.words.now) (number_of refusal.reason ∷ refusal.place ∷ [])) }
    {
        self.says(
            at,
            &[u64::from(refusal.reason.number()), u64::from(refusal.place)],
        )
    }

    // The lists that follow each other from word `at` on.
    pub fn lists(self, at: usize) -> Result<Lists<'a>, Fault> {
        let rest = self.words.get(at..).ok_or(Fault::Malformed)?;
        Ok(Lists { record: self, rest })
    }
}

// The lists of a record that are still to be read.
#[derive(Drop)]
pub struct Lists<'a> {
    record: Record<'a>,
    rest: &'a [u64],
}

impl<'a> Lists<'a> {
    // The next n words.
    fn words(&mut self, n: usize) -> Result<&'a [u64], Fault>
        ensures { IfOk result (λ words. (length words.now ≡ n) × (self.old.rest.now ≡ words.now ++ self.new.rest.now)) }
    {
        let (words, rest) = self.rest.split_at_checked(n).ok_or(Fault::Malformed)?;
        self.rest = rest;
        Ok(words)
    }

    // The next list, as long as word i says.
    pub fn list(&mut self, i: usize) -> Result<&'a [u64], Fault>
        ensures counted { IfOk result (λ list. slice_get self.old.record.words.now i ≡ Some (length list.now)) }
        ensures taken { IfOk result (λ list. self.old.rest.now ≡ list.now ++ self.new.rest.now) }
    {
        self.words(self.record.size(i)?)
    }

    // The same, at a call's width.
    pub fn read<'b, T: Element>(&mut self, i: usize, room: &'b mut [T]) -> Result<&'b [T], Fault> {
        let words = self.list(i)?;
        let out = room.get_mut(..words.len()).ok_or(Fault::Malformed)?;
        for (x, word) in out.iter_mut().zip(words) {
            *x = T::from_word(*word).ok_or(Fault::Malformed)?;
        }
        Ok(out)
    }

    // The next bytes, as many as word i says, which stand eight to a word.
    pub fn bytes<'b>(&mut self, i: usize, room: &'b mut [u8]) -> Result<&'b [u8], Fault> {
        let n = usize::try_from(self.record.word(i)?)?;
        let out = room.get_mut(..n).ok_or(Fault::Malformed)?;
        let words = self.words(n.div_ceil(8))?;
        for (byte, told) in out
            .iter_mut()
            .zip(words.iter().flat_map(|word| word.to_le_bytes()))
        {
            *byte = told;
        }
        Ok(out)
    }

    // The words behind the lists that were read.
    pub fn rest(self) -> &'a [u64] {
        self.rest
    }
}
