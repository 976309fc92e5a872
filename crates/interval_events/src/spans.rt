// The sweep over its spans: between two positions of events the active intervals stay the same, and the mapper's shared count is their score.
ghost use Rattle.std.specs.Prelude.{◌≡◌, ◌<◌, length, get_or, drop};
ghost use Rattle.rules.specs.Interval.{event_at, event_kind, event_coord};
ghost use Rattle.slide_mapper.specs.State.{flags_of, counts_of};
ghost use Rattle.slide_mapper.specs.Lent.{SameLists};
ghost use Rattle.base.specs.Kinds.{kind_number};
ghost use Rattle.interval_events.specs.Spans.{Stepped, Room, end_before, Empty, Filled, Start, BestOf};

use base::{Base, Best, Coord, Kind, Slide};
use slide_mapper::lists::MapperLists;

// The position of an event key.
fn position(key: u64) -> u64
    ensures { result ≡ event_at key }
{
    key / 131072
}

// What its kind makes of the interval.
fn kind_of(key: u64) -> Kind
    ensures { kind_number result ≡ event_kind key }
{
    if key / 65536 % 2 == 0 {
        Kind::Delete
    } else {
        Kind::Insert
    }
}

// An event. A delete does nothing at count 0.
fn step(lists: &mut MapperLists<'_>, at: Slide, key: u64) -> Slide
    requires { Room key lists.old at }
    ensures { Stepped (event_kind key) (event_coord key) lists.old lists.new result }
{
    let coord = Coord((key % 65536) as u32);
    match kind_of(key) {
        Kind::Delete => lists.delete_ref(at, coord),
        Kind::Insert => lists.insert_ref(at, coord),
    }
}

// The last position before the events from i on: the range's last where there are none.
fn span_end(keys: &[u64], i: usize, to: u64) -> u64
    requires { i < length keys.now → 0 < event_at (get_or keys.now i 0) }
    ensures { result ≡ end_before to (drop i keys.now) }
{
    match keys.get(i) {
        Some(key) => position(*key) - 1,
        None => to,
    }
}

// The intervals of these numbers become active: those that start no later than the range.
pub fn fill(numbers: &[u32], lists: &mut MapperLists<'_>, start: Slide) -> Slide
    requires { Empty numbers.now lists.old start }
    ensures same { SameLists lists.old lists.new }
    ensures filled { Filled numbers.now lists.old lists.new result }
{
    let mut at = start;
    for number in numbers {
        at = lists.insert_ref(at, Coord(*number));
    }
    at
}

// Every span from position `from` on: the events at one position are all applied, then the span up to the next ones is scored. Both loops go on
// with one index.
pub fn run(keys: &[u64], from: Base, to: Base, lists: &mut MapperLists<'_>, start: Slide) -> Best
    requires { Start keys.now from.0 lists.old start }
    ensures { BestOf (flags_of lists.old.counts.now) keys.now from.0 to.0 (counts_of lists.old.counts.now) result }
{
    let mut at = start;
    let mut best = Best {
        shared: start.shared,
        first: from,
        last: Base(span_end(keys, 0, to.0)),
    };
    let mut i = 0;
    'events: while i < keys.len() {
        let p = position(keys[i]);
        'group: while i < keys.len() {
            let key = keys[i];
            if position(key) != p {
                break 'group;
            }
            at = step(lists, at, key);
            i += 1;
        }
        let last = Base(span_end(keys, i, to.0));
        best = sweep::better(best, at.shared, Base(p), last);
    }
    best
}
