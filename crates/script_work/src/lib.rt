// The work of a script that passed its checks, over work lists of exactly the needed sizes: the query is marked in the count words, the
// mapper begins, and each step moves it.
#![tactic(auto)]

pub mod asked;
pub mod looks;

ghost use Rattle.std.specs.Prelude.{◌≡◌, ◌+◌, ◌^◌, ◌≤◌, ◌<◌, length, get_or, replicate};
ghost use Rattle.base.specs.Lists.{All};
ghost use Rattle.slide_mapper.specs.State.{flags_of, slide_of};
ghost use Rattle.slide_mapper.specs.Lent.{AtPivot};
ghost use Rattle.script_work.specs.Looks.{SameLooks};
ghost use Rattle.script_work.specs.Work.{asked, Outputs, Exact, Clear, marked, Begun, Stepped, look_of, looks_from, Underway, Start, Answered, Further, Worked};

use asked::{Query, Steps};
use base::{Coord, Kind, Slide};
use looks::Looks;
use slide_mapper::lists::MapperLists;

// Marks the query: 1 in the count word of each of its hashes, whose places the checks have found.
fn mark(query: Query<'_>, counts: &mut [u32])
    requires { counts.old ≡ replicate (length query.coords.now) 0 }
    ensures { counts.new ≡ marked query.entry.hashes.now query.entry.coords.now }
{
    let places = &query.places[..query.hashes.len()];
    for place in places {
        counts[*place as usize] = 1;
    }
}

// The state before the first step. The lists stand apart here, since they agree, as `MapperLists` has it, only once the mapper has begun.
fn prepare(query: Query<'_>, counts: &mut [u32], words: &mut [u64], summary: &mut [u64]) -> Slide
    requires { Clear (length query.coords.now) counts.old words.old summary.old }
    ensures { Begun query.entry.hashes.now query.entry.coords.now counts.new words.new summary.new result }
{
    mark(query, counts);
    slide_mapper::begin(counts, words, summary)
}

// One step.
fn step(lists: &mut MapperLists<'_>, at: Slide, kind: Kind, coord: Coord) -> Slide
    requires at { AtPivot lists.old at }
    requires inside { coord.0 < length lists.old.counts.now }
    requires room { get_or lists.old.counts.now coord.0 0 + 2 < 2 ^ 32 }
    ensures { Stepped lists.old at kind coord.0 lists.new result }
{
    match kind {
        Kind::Insert => lists.insert_ref(at, coord),
        Kind::Delete => lists.delete_ref(at, coord),
    }
}

// The steps of a block, each with its answer. By an index: iterators over four lists side by side test an end of each at every step, and
// a list that is written through one is not known afterwards.
fn run_block(
    steps: Steps<'_>,
    lists: &mut MapperLists<'_>,
    looks: &mut Looks<'_>,
    start: Slide,
    from: usize,
    end: usize,
) -> Slide
    requires underway { Underway steps lists.old looks.old start from }
    requires order { from ≤ end }
    requires inside { end ≤ length steps.indexes.now }
    ensures same { SameLooks looks.old looks.new }
    ensures further { Further steps.entry lists.old looks.old start from lists.new looks.new result end }
{
    let mut at = start;
    for j in from..end {
        let kind = Kind::from(steps.kinds[j]);
        let coord = Coord(steps.indexes[j]);
        at = step(lists, at, kind, coord);
        looks.put(j, at);
    }
    at
}

// All steps, each with its answer, in blocks: two loops deep the compiler takes the moves into the loop. Called, a move hands its pair
// back through memory in two halves that are read as one, which stalls. Any size of block is right.
fn run(steps: Steps<'_>, lists: &mut MapperLists<'_>, looks: &mut Looks<'_>, start: Slide) -> Slide
    requires { Start steps lists.old looks.old start }
    ensures same { SameLooks looks.old looks.new }
    ensures answered { Answered (look_of start) (looks_from (flags_of lists.old.counts.now) steps.entry.indexes.now steps.entry.kinds.now (slide_of lists.old.counts.now start)) looks.old looks.new (look_of result) }
{
    let n = steps.indexes.len();
    let mut at = start;
    // A `while`: over `(0..n).step_by(64)` a step costs a tenth more.
    let mut j = 0;
    while j < n {
        let end = n.min(j + 64);
        at = run_block(steps, lists, looks, at, j, end);
        j = end;
    }
    at
}

// Clears the work lists.
fn clear(counts: &mut [u32], words: &mut [u64], summary: &mut [u64])
    ensures counts { counts.new ≡ replicate (length counts.old) 0 }
    ensures words { words.new ≡ replicate (length words.old) 0 }
    ensures summary { summary.new ≡ replicate (length summary.old) 0 }
{
    counts.fill(0);
    words.fill(0);
    summary.fill(0);
}

// The whole script, whatever the work lists hold; it leaves them clear. They are lent apart, as parts of the caller's lists.
pub fn clear_and_work(
    query: Query<'_>,
    steps: Steps<'_>,
    counts: &mut [u32],
    words: &mut [u64],
    summary: &mut [u64],
    looks: &mut Looks<'_>,
) -> Slide
    requires within { All (λ i. i < length query.coords.now) steps.indexes.now }
    requires outputs { Outputs (length steps.indexes.now) looks.old }
    requires exact { Exact (length query.coords.now) counts.old words.old summary.old }
    ensures same { SameLooks looks.old looks.new }
    ensures worked { Worked (asked query.entry steps.entry) looks.old counts.new words.new summary.new looks.new result }
{
    clear(counts, words, summary);
    let start = prepare(query, counts, words, summary);
    let mut lists = MapperLists {
        counts: &mut *counts,
        words: &mut *words,
        summary: &mut *summary,
    };
    let last = run(steps, &mut lists, looks, start);
    clear(counts, words, summary);
    last
}
