// One range of a minimizer sweep that passed its checks: which items are local, and the best of their stops. The work lists are clear before
// it and behind it, so that it may be asked again for another range behind the same checks; the place is made from its best elsewhere.
#![tactic(auto)]

pub mod items;

ghost use Rattle.std.specs.Prelude.{◌≡◌, ◌+◌, ◌-◌, ◌^◌, ◌≤◌, ◌<◌, length, MatchOption};
ghost use Rattle.base.specs.Lists.{Asc};
ghost use Rattle.keys.specs.Lists.{below};
ghost use Rattle.rules.specs.Minimizer.{windows_per_start, items_of};
ghost use Rattle.sweep.specs.Beginning.{Clear};
ghost use Rattle.sweep.specs.Lent.{SameWork, Zero};
ghost use Rattle.minimizer_work.specs.Given.{asked};
ghost use Rattle.minimizer_work.specs.Work.{Ready, Asks, Answers, Local, Task, Done, Told};

use base::{Range, Settings, Stats};
use items::Items;
use slide_mapper::lists::MapperLists;
use sweep::work::Work;
use sweep::{Bounds, Found, Lengths};

// What is sought: the fragment by its settings and its query, among the reference's items, in a range.
#[derive(Clone, Copy)]
pub struct Search<'q, 'i> {
    pub settings: Settings,
    pub window: u32,
    pub range: Range,
    pub query: &'q [u64],
    pub items: Items<'i>,
}

// W; 0 where it would be below 1.
pub fn windows_per_start(settings: Settings, window: u32) -> u64
    ensures { (result ≡ settings.length - (window - 1) - (settings.kmer - 1)) × (result < 2 ^ 32) }
{
    let beside = window.saturating_sub(1);
    let inside = settings.kmer.saturating_sub(1);
    let windows = settings.length.saturating_sub(beside);
    u64::from(windows.saturating_sub(inside))
}

// Local items lie from range start on, below range end + length; the sum passes 32 bits.
pub fn local_items(positions: &[u32], range: Range, length: u32) -> Bounds
    requires { Asc positions.now }
    ensures { (result.from ≡ below range.start positions.now) × (result.to ≡ below (range.end + length) positions.now) }
{
    let past = u64::from(range.end) + u64::from(length);
    let from = keys::count_below(positions, u64::from(range.start));
    let to = keys::count_below(positions, past);
    Bounds { from, to }
}

impl Search<'_, '_> {
    // W; None where it is below 1.
    #[tactic(auto, unfolding(rules::specs::Minimizer::windows_per_start))]
    fn windows(self) -> Option<u64>
        ensures { MatchOption result (windows_per_start (asked self.entry) ≡ 0) (λ w. (w ≡ windows_per_start (asked self.entry)) × (0 < w) × (w < 2 ^ 32)) }
    {
        let windows = windows_per_start(self.settings, self.window);
        if windows == 0 {
            return None;
        }
        Some(windows)
    }

    // The local items; None where there is none.
    fn local(self) -> Option<Bounds>
        ensures { MatchOption result (below (self.entry.range.end + self.entry.settings.length) self.entry.items.positions.now ≤ below self.entry.range.start self.entry.items.positions.now) (λ bounds. Local (asked self.entry) bounds.from bounds.to) }
    {
        let bounds = local_items(self.items.positions, self.range, self.settings.length);
        if bounds.to <= bounds.from {
            return None;
        }
        Some(bounds)
    }
}

// The local items are numbered, and swept over.
fn run(query: &[u64], items: Items<'_>, w: u64, last: u32, work: &mut Work<'_>) -> Found
    requires asks { Asks query.now items w }
    requires zero { Zero (length query.now + length items.hashes.now) work.old }
    ensures same { SameWork work.old work.new }
    ensures answers { Answers query.now (items_of items.entry.hashes.now items.entry.positions.now) w last result }
{
    let begun = work.prepare(query, items.hashes);
    let k = query.len();
    let count = items.hashes.len() as u32;
    let at = begun.at;
    let mut lists = MapperLists {
        counts: work.counts,
        words: work.words,
        summary: work.summary,
    };
    let swept = minimizer_stops::sweep_stops(
        items.positions,
        &work.coords[k..],
        w,
        last,
        &mut lists,
        at,
    );
    Found {
        best: swept.best,
        stats: Stats {
            windows: swept.windows,
            coords: begun.coords,
            items: count,
        },
    }
}

// The same over lists that are lent apart, cleared behind it: a `Work` of parts of lists is made where these are the function's own.
fn run_and_clear(
    query: &[u64],
    items: Items<'_>,
    w: u64,
    last: u32,
    keys: &mut [u64],
    counts: &mut [u32],
    coords: &mut [u32],
    words: &mut [u64],
    summary: &mut [u64],
) -> Found
    requires asks { Asks query.now items w }
    requires clear { Clear (length query.now + length items.hashes.now) keys.old counts.old coords.old words.old summary.old }
    ensures answers { Answers query.now (items_of items.entry.hashes.now items.entry.positions.now) w last result }
    ensures clear { Clear (length query.now + length items.entry.hashes.now) keys.new counts.new coords.new words.new summary.new }
{
    let mut work = Work {
        keys,
        counts,
        coords,
        words,
        summary,
    };
    let found = run(query, items, w, last, &mut work);
    work.clear();
    found
}

// The best of all stops of the local items, which are these. Only the part of each list that they need is used, and cleared.
fn sweep_local(search: Search<'_, '_>, w: u64, bounds: Bounds, work: &mut Work<'_>) -> Found
    requires task { Task (asked search) bounds.from bounds.to }
    requires windows { (w ≡ windows_per_start (asked search)) × (w < 2 ^ 32) }
    requires zero { Zero (length search.query.now + length search.items.hashes.now) work.old }
    ensures same { SameWork work.old work.new }
    ensures done { Done (asked search.entry) result }
    ensures zero { Zero (length search.entry.query.now + length search.entry.items.hashes.now) work.new }
{
    let Bounds { from, to } = bounds;
    let needed = Lengths::needed(search.query.len() + (to - from));
    run_and_clear(
        search.query,
        Items {
            hashes: &search.items.hashes[from..to],
            positions: &search.items.positions[from..to],
        },
        w,
        search.range.end,
        &mut work.keys[..needed.keys],
        &mut work.counts[..needed.counts],
        &mut work.coords[..needed.coords],
        &mut work.words[..needed.words],
        &mut work.summary[..needed.summary],
    )
}

// The best of all stops of the range, and what was counted; None where there is no place before coordinates are built.
pub fn work(search: Search<'_, '_>, work: &mut Work<'_>) -> Option<Found>
    requires ready { Ready search.query.now search.items.hashes.now search.items.positions.now }
    requires zero { Zero (length search.query.now + length search.items.hashes.now) work.old }
    ensures same { SameWork work.old work.new }
    ensures told { Told (asked search.entry) result }
    ensures zero { Zero (length search.entry.query.now + length search.entry.items.hashes.now) work.new }
{
    let w = search.windows()?;
    if search.query.is_empty() {
        return None;
    }
    let bounds = search.local()?;
    Some(sweep_local(search, w, bounds, work))
}
