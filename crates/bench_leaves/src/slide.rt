// Lists of inserts or deletes by the slide mapper, a list to a call, from a state that the benchmark has made ready. Each function answers
// how many moves it has run and leaves the last pair in `last`. The two loops stand apart: one loop over a move that is passed would want a
// trait, with a ghost member that says what the lists are ready for and how often, and is longer than both.
ghost use Rattle.std.specs.Prelude.{ℕ, ◌+◌, ◌*◌, ◌^◌, ◌<◌, length, get_or};
ghost use Rattle.slide_mapper.specs.State.{Ready};

use base::{Coord, Slide};
use slide_mapper::lists::MapperLists;

fn store(last: &mut [u32], at: Slide) {
    if let [pivot, shared, ..] = last {
        *pivot = at.pivot.0;
        *shared = at.shared;
    }
}

#[unsafe(no_mangle)]
pub extern "C" fn slide_insert(
    counts: &mut [u32],
    words: &mut [u64],
    summary: &mut [u64],
    pivot: u32,
    shared: u32,
    at: &[u32],
    last: &mut [u32],
) -> usize
    requires { Ready counts.old words.old summary.old (record { pivot = record { 0 = pivot }; shared = shared }) × ((j : ℕ) → get_or counts.old j 0 + 2 * length at.now < 2 ^ 32) }
{
    let mut lists = MapperLists {
        counts,
        words,
        summary,
    };
    let mut slide = Slide {
        pivot: Coord(pivot),
        shared,
    };
    for (k, i) in at.iter().enumerate() {
        if lists.counts.len() <= *i as usize {
            return k;
        }
        slide = lists.insert_ref(slide, Coord(*i));
    }
    store(last, slide);
    at.len()
}

#[unsafe(no_mangle)]
pub extern "C" fn slide_delete(
    counts: &mut [u32],
    words: &mut [u64],
    summary: &mut [u64],
    pivot: u32,
    shared: u32,
    at: &[u32],
    last: &mut [u32],
) -> usize
    requires { Ready counts.old words.old summary.old (record { pivot = record { 0 = pivot }; shared = shared }) }
{
    let mut lists = MapperLists {
        counts,
        words,
        summary,
    };
    let mut slide = Slide {
        pivot: Coord(pivot),
        shared,
    };
    for (k, i) in at.iter().enumerate() {
        if lists.counts.len() <= *i as usize {
            return k;
        }
        slide = lists.delete_ref(slide, Coord(*i));
    }
    store(last, slide);
    at.len()
}
