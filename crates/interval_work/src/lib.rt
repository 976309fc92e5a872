// One range of an interval sweep that passed its checks: which intervals may be taken, their coordinates, their events, and the best of the
// spans between these. The work lists are zero before it and behind it; the place is made from its best elsewhere.
#![tactic(auto)]

ghost use Rattle.std.specs.Prelude.{◌≡◌, ◌+◌, ◌-◌, length};
ghost use Rattle.base.specs.Lists.{Asc};
ghost use Rattle.keys.specs.Lists.{below};
ghost use Rattle.rules.specs.Sweep.{Sweep, best};
ghost use Rattle.rules.specs.Interval.{spans_from, spans};
ghost use Rattle.slide_mapper.specs.State.{flags_of, counts_of};
ghost use Rattle.sweep.specs.Lent.{SameWork};
ghost use Rattle.interval_events.specs.Spans.{Asks, raised};
ghost use Rattle.interval_work.specs.Work.{Begin, Given, Tells, Rooms, Numbers, Part, Lent, Found, Clear, Ready, Of};

use base::{Base, Best, Range, Settings};
use interval_events::intervals::Intervals;
use slide_mapper::lists::MapperLists;
use sweep::Bounds;
use sweep::work::Work;

// Where the intervals that may be taken stand: their starts lie from range start − K to range end.
pub fn local(starts: &[u32], settings: Settings, range: Range) -> Bounds
    requires { Asc starts.now }
    ensures from { result.from ≡ below (range.start - (settings.length + 1 - settings.kmer)) starts.now }
    ensures to { result.to ≡ below (range.end + 1) starts.now }
{
    let kmers = (u64::from(settings.length) + 1).saturating_sub(u64::from(settings.kmer));
    let first = u64::from(range.start).saturating_sub(kmers);
    let from = keys::count_below(starts, first);
    let to = keys::count_below(starts, u64::from(range.end) + 1);
    Bounds { from, to }
}

// The best of the spans, how many coordinates there are, and how many intervals were taken, of which there is one at least.
#[derive(Clone, Copy)]
pub struct Swept {
    pub best: Best,
    pub coords: u32,
    pub items: u32,
}

// The sweep over given events: these numbers are active at the range's first position.
fn sweep_events(
    numbers: &[u32],
    keys: &[u64],
    range: Range,
    counts: &mut [u32],
    words: &mut [u64],
    summary: &mut [u64],
) -> Best
    requires { Begin numbers.now keys.now range.start counts.old words.old summary.old }
    ensures { (s : Sweep) → Asks s (flags_of counts.old) range.end → result ≡ best (spans_from s range.start (raised numbers.now (counts_of counts.old)) keys.now) }
{
    let at = slide_mapper::begin(counts, words, summary);
    let mut lists = MapperLists {
        counts,
        words,
        summary,
    };
    let full = interval_events::spans::fill(numbers, &mut lists, at);
    let from = Base(u64::from(range.start));
    let to = Base(u64::from(range.end));
    interval_events::spans::run(keys, from, to, &mut lists, full)
}

// The best of the spans of a part of the intervals, of which the taken ones have these numbers.
fn best_of(
    numbers: &[u32],
    intervals: Intervals<'_>,
    range: Range,
    keys: &mut [u64],
    counts: &mut [u32],
    words: &mut [u64],
    summary: &mut [u64],
    events: &mut [u64],
) -> Best
    requires { Given intervals numbers.now keys.old counts.old words.old summary.old events.old range.start }
    ensures { (s : Sweep) → Tells s (flags_of counts.old) (counts_of counts.old) intervals.entry numbers.now range.start range.end → result ≡ best (spans s) }
{
    let made = interval_events::events::events(intervals, numbers, range, keys, events);
    let n = made.ends + made.starts;
    // Each taken interval either has a start key or begins active; those that begin come first, since starts ascend.
    let begun = &numbers[..numbers.len() - made.starts];
    sweep_events(begun, &events[..n], range, counts, words, summary)
}

// Numbers the hashes, in the fronts of the lists. Over slices, as the two above: the mapper and the keys get parts of the lists.
fn number(
    query: &[u64],
    hashes: &[u64],
    keys: &mut [u64],
    counts: &mut [u32],
    coords: &mut [u32],
) -> usize
    requires { Rooms query.now hashes.now keys.old counts.old coords.old }
    ensures { Numbers query.now hashes.now counts.new coords.new result }
{
    let m = query.len() + hashes.len();
    coordinates::coordinates(
        query,
        hashes,
        &mut keys[..m],
        &mut counts[..m],
        &mut coords[..m],
    )
}

// The sweep over a part of the intervals; none where none of them is taken.
fn sweep_part(
    query: &[u64],
    intervals: Intervals<'_>,
    range: Range,
    work: &mut Work<'_>,
    events: &mut [u64],
) -> Option<Swept>
    requires { Lent query.now intervals work.old events.old }
    ensures same { SameWork work.old work.new }
    ensures found { (s : Sweep) → Part s query.now intervals.entry range.start range.end → Found s result }
{
    let k = query.len();
    let n = interval_events::events::take(intervals.hashes, intervals.ends, range.start, events);
    if n == 0 {
        return None;
    }
    let c = number(query, &events[..n], work.keys, work.counts, work.coords);
    let best = best_of(
        &work.coords[k..k + n],
        intervals,
        range,
        work.keys,
        &mut work.counts[..c],
        work.words,
        work.summary,
        events,
    );
    Some(Swept {
        best,
        coords: c as u32,
        items: n as u32,
    })
}

// The sweep over the intervals within the bounds, over work lists that are zero, which it leaves zero.
pub fn work(
    query: &[u64],
    intervals: Intervals<'_>,
    settings: Settings,
    range: Range,
    bounds: Bounds,
    work: &mut Work<'_>,
    events: &mut [u64],
) -> Option<Swept>
    requires ready { Ready query.now intervals settings range bounds.from bounds.to }
    requires clear { Clear (length query.now + length intervals.hashes.now) (length intervals.hashes.now) work.old events.old }
    ensures same { SameWork work.old work.new }
    ensures found { (s : Sweep) → Of s query.now intervals.entry settings range → Found s result }
    ensures clear { Clear (length query.now + length intervals.entry.hashes.now) (length intervals.entry.hashes.now) work.new events.new }
{
    let part = intervals.part(bounds.from, bounds.to);
    let swept = sweep_part(query, part, range, work, events);
    work.clear();
    events.fill(0);
    swept
}
