// The lists lent to a call: poisoned before it, held element by element to the record after it.
ghost use Rattle.std.specs.Prelude.{◌≤◌, length, IsTrue};

// What lent lists hold before a call.
pub const POISON: u32 = 0xa5a5_a5a5;

pub const POISON_WORD: u64 = POISON as u64;

fn poisoned<T: Copy + Into<u64>>(list: &[T]) -> bool {
    list.iter().all(|x| (*x).into() == POISON_WORD)
}

// Whether the list begins with these and is as it was behind them.
pub fn holds<T: Copy + Into<u64>>(list: &[T], words: &[u64]) -> bool
    ensures { IsTrue result → length words.now ≤ length list.now }
{
    list.split_at_checked(words.len()).is_some_and(|(front, rest)| {
        front
            .iter()
            .zip(words)
            .all(|(x, word)| (*x).into() == *word)
            && poisoned(rest)
    })
}

// Whether the first n elements are 0 and all behind them are as they were.
pub fn zeroed<T: Copy + Into<u64>>(list: &[T], n: usize) -> bool
    ensures { IsTrue result → n ≤ length list.now }
{
    list.split_at_checked(n).is_some_and(|(front, rest)| front.iter().all(|x| (*x).into() == 0)
        && poisoned(rest))
}
