// Lists of operations on a set of bits, a list to a call: a crossing of the C border for each operation would be most of its time.
// Nothing can be required of C, so each function looks at its arguments before it changes anything. An index has 16 bits and the words are
// 1,024, as many as a script ever needs, so no index passes their end and none has to be looked at: what is timed are the operations. (The
// `tested` ones take indices of 32 bits.)
// The answer is 1 where the operations were run, and 0 where something did not fit. (The length of the list as the answer would keep the
// count of the loop alive: an instruction more for each operation on Arm.)
ghost use Rattle.std.specs.Prelude.{◌≡◌, true, false, ℕ, ◌+◌, ◌*◌, ◌^◌, ◌≤◌, ◌<◌, min, length, get_or};
ghost use Rattle.summary_bits.specs.Summary.{Fits, Summary};

use base::Coord;

// Whether the sizes fit each other.
fn fits(words: &[u64], summary: &[u64]) -> bool
    ensures { result ≡ true → Fits words.now summary.now × (length summary.now ≤ 1024) }
{
    words.len() <= 1024 && summary.len() <= 1024 && words.len() <= summary.len() * 64
}

// 1 where word j is not 0, else 0; past the end it is 0.
fn used(words: &[u64], j: usize) -> u64
    ensures { result ≡ min (get_or words.now j 0) 1 }
{
    u64::from(words.get(j).is_some_and(|word| *word != 0))
}

// Whether the summary goes with the words.
fn agrees(words: &[u64], summary: &[u64]) -> bool
    ensures { result ≡ true → Fits words.now summary.now × (length summary.now ≤ 1024) × Summary words.now summary.now }
{
    fits(words, summary)
        && (0..summary.len() * 64).all(|j| (summary[j / 64] >> (j % 64)) % 2 == used(words, j))
}

// The index that was found, or the largest number there is.
fn told(found: Option<usize>) -> u32 {
    found.map_or(u32::MAX, |i| (i % (1 << 32)) as u32)
}

// One operation after the other, each index read just before it; the compiler makes a loop for each operation. Answers whether they were
// run: where not, words and summary are as they were.
fn run_each<F: Fn(&mut [u64], &mut [u64], Coord)>(
    words: &mut [u64],
    summary: &mut [u64],
    at: &[u16],
    run: F,
) -> bool
    requires { (ws ss c : _) → Fits ws.now ss.now → c.0 < length ws.now * 64 → F.pre run ws ss c }
    ensures { result ≡ false → (words.new ≡ words.old) × (summary.new ≡ summary.old) }
{
    if !fits(words, summary) || words.len() < 1024 {
        return false;
    }
    for i in at {
        run(words, summary, Coord(u32::from(*i)));
    }
    true
}

#[unsafe(no_mangle)]
pub extern "C" fn bits_set(words: &mut [u64], summary: &mut [u64], at: &[u16]) -> u32 {
    u32::from(run_each(words, summary, at, summary_bits::set))
}

#[unsafe(no_mangle)]
pub extern "C" fn bits_clear(words: &mut [u64], summary: &mut [u64], at: &[u16]) -> u32 {
    u32::from(run_each(words, summary, at, summary_bits::clear))
}

// As `run_each`, for indices of any size: each is tested just before its operation, as in the original, and passed over where it lies
// past the end.
fn run_tested<F: Fn(&mut [u64], &mut [u64], Coord)>(
    words: &mut [u64],
    summary: &mut [u64],
    at: &[u32],
    run: F,
) -> bool
    requires { (ws ss c : _) → Fits ws.now ss.now → c.0 < length ws.now * 64 → F.pre run ws ss c }
{
    if !fits(words, summary) {
        return false;
    }
    for i in at {
        if ((*i / 64) as usize) < words.len() {
            run(words, summary, Coord(*i));
        }
    }
    true
}

#[unsafe(no_mangle)]
pub extern "C" fn bits_set_tested(words: &mut [u64], summary: &mut [u64], at: &[u32]) -> u32 {
    u32::from(run_tested(words, summary, at, summary_bits::set))
}

#[unsafe(no_mangle)]
pub extern "C" fn bits_clear_tested(words: &mut [u64], summary: &mut [u64], at: &[u32]) -> u32 {
    u32::from(run_tested(words, summary, at, summary_bits::clear))
}

// Searches from each index; answers whether the summary goes with the words and the searches were run. By index: to zip the lists is two
// instructions more for each search.
fn search_each<F: Fn(Coord) -> Option<usize>>(
    words: &[u64],
    summary: &[u64],
    at: &[u16],
    out: &mut [u32],
    search: F,
) -> bool
    requires { Fits words.now summary.now → Summary words.now summary.now → (c : _) → c.0 < 2 ^ 16 → F.pre search c }
{
    if !agrees(words, summary) || out.len() < at.len() {
        return false;
    }
    for (k, i) in at.iter().enumerate() {
        out[k] = told(search(Coord(u32::from(*i))));
    }
    true
}

#[unsafe(no_mangle)]
pub extern "C" fn bits_prev(words: &[u64], summary: &[u64], at: &[u16], out: &mut [u32]) -> u32 {
    if words.len() < 1024 {
        return 0;
    }
    let search = |coord| summary_bits::prev_set_before(words, summary, coord);
    u32::from(search_each(words, summary, at, out, search))
}

#[unsafe(no_mangle)]
pub extern "C" fn bits_next(words: &[u64], summary: &[u64], at: &[u16], out: &mut [u32]) -> u32 {
    let search = |coord| summary_bits::next_set_after(words, summary, coord);
    u32::from(search_each(words, summary, at, out, search))
}
