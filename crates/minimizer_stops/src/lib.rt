// The sweep over its stops, for local items that are told by their positions and their coordinate numbers: a stop's items are active in the
// mapper, whose shared count is their score.
#![tactic(auto)]

ghost use Rattle.std.specs.Prelude.{◌≡◌, ◌+◌, ◌-◌, ◌^◌, ◌≤◌, ◌<◌, length, get_or};
ghost use Rattle.rules.specs.Minimizer.{goes_on, next_stop};
ghost use Rattle.slide_mapper.specs.State.{flags_of};
ghost use Rattle.minimizer_stops.specs.Stops.{sites, stop_of, Room, Holds, Step, Kept, Start, Over, Begin, Whole};

use base::{Base, Best, Coord, Slide};
use slide_mapper::lists::MapperLists;

// The first item b, the end item e (not included), the start p.
#[derive(Clone, Copy)]
pub struct Stop {
    pub b: usize,
    pub e: usize,
    pub p: Base,
}

// The best of the stops, and how many there were.
#[derive(Clone, Copy)]
pub struct Swept {
    pub best: Best,
    pub windows: u64,
}

// Whether the stop is scored: an item lies past it, and it starts within the range.
fn goes_on(positions: &[u32], last: u32, stop: Stop) -> bool
    ensures { result ≡ goes_on last (sites positions.now) (stop_of stop) }
{
    stop.e < positions.len() && stop.p.0 <= u64::from(last)
}

// Where item b leaves: at the next item's position. Until then it stays, as the last item at or before the start.
fn leaves_at(positions: &[u32], stop: Stop) -> u64
    requires { stop.b + 1 < length positions.now }
    ensures { (result ≡ get_or positions.now (stop.b + 1) 0) × (result < 2 ^ 32) }
{
    u64::from(positions[stop.b + 1])
}

// The stop at the nearer of the next item's position and the start that takes item e in; a tie moves both.
fn next_stop(positions: &[u32], w: u64, stop: Stop) -> Stop
    requires { Room positions.now w stop }
    ensures { stop_of result ≡ next_stop w (sites positions.now) (stop_of stop) }
{
    let to_begin = leaves_at(positions, stop).saturating_sub(stop.p.0);
    let to_end = (u64::from(positions[stop.e]) + 1).saturating_sub(stop.p.0 + w);
    if to_begin < to_end {
        return Stop {
            b: stop.b + 1,
            p: Base(stop.p.0 + to_begin),
            ..stop
        };
    }
    if to_end < to_begin {
        return Stop {
            e: stop.e + 1,
            p: Base(stop.p.0 + to_end),
            ..stop
        };
    }
    Stop {
        b: stop.b + 1,
        e: stop.e + 1,
        p: Base(stop.p.0 + to_end),
    }
}

// What is recorded for a stop: the position of item b, which may lie before its start.
fn recorded(positions: &[u32], stop: Stop) -> Base
    requires { stop.b < length positions.now }
    ensures { result.0 ≡ get_or positions.now stop.b 0 }
{
    Base(u64::from(positions[stop.b]))
}

// Item b leaves if the next stop begins past it.
fn leave(numbers: &[u32], lists: &mut MapperLists<'_>, at: Slide, stop: Stop, next: Stop) -> Slide
    requires holds { Holds numbers.now lists.old at stop.b stop.e }
    requires step { Step numbers.now stop next }
    ensures holds { Holds numbers.now lists.new result next.b stop.e }
    ensures kept { Kept lists.old lists.new }
{
    if next.b == stop.b {
        return at;
    }
    lists.delete_ref(at, Coord(numbers[stop.b]))
}

// Item e enters if the next stop ends past it.
fn enter(numbers: &[u32], lists: &mut MapperLists<'_>, at: Slide, stop: Stop, next: Stop) -> Slide
    requires holds { Holds numbers.now lists.old at next.b stop.e }
    requires step { Step numbers.now stop next }
    ensures holds { Holds numbers.now lists.new result next.b next.e }
    ensures kept { Kept lists.old lists.new }
{
    if next.e == stop.e {
        return at;
    }
    lists.insert_ref(at, Coord(numbers[stop.e]))
}

// The mapper at the next stop.
fn slide(numbers: &[u32], lists: &mut MapperLists<'_>, at: Slide, stop: Stop, next: Stop) -> Slide
    requires holds { Holds numbers.now lists.old at stop.b stop.e }
    requires step { Step numbers.now stop next }
    ensures holds { Holds numbers.now lists.new result next.b next.e }
    ensures kept { Kept lists.old lists.new }
{
    let left = leave(numbers, lists, at, stop, next);
    enter(numbers, lists, left, stop, next)
}

// Every stop from `from` on: each is scored, then the mapper goes to the next, until no item lies past it, it starts past the range, or the next
// is no farther.
fn run(
    positions: &[u32],
    numbers: &[u32],
    w: u64,
    last: u32,
    lists: &mut MapperLists<'_>,
    start: Slide,
    from: Stop,
    first: Best,
) -> Swept
    requires { Start positions.now numbers.now w lists.old start from }
    ensures { Over (flags_of lists.old.counts.now) positions.now numbers.now w last (stop_of from) first result }
{
    let mut at = start;
    let mut stop = from;
    let mut best = first;
    let mut windows: u64 = 0;
    while goes_on(positions, last, stop) {
        let place = recorded(positions, stop);
        best = sweep::better(best, at.shared, place, place);
        windows += 1;
        let next = next_stop(positions, w, stop);
        if next.p.0 <= stop.p.0 {
            return Swept { best, windows };
        }
        at = slide(numbers, lists, at, stop, next);
        stop = next;
    }
    Swept { best, windows }
}

// The first items of the local ones become active. (The interval sweep has two lines like these: what is promised of them differs.)
fn fill(numbers: &[u32], lists: &mut MapperLists<'_>, start: Slide, e: usize) -> Slide
    requires holds { Holds numbers.now lists.old start 0 0 }
    requires inside { e ≤ length numbers.now }
    ensures holds { Holds numbers.now lists.new result 0 e }
    ensures kept { Kept lists.old lists.new }
{
    let mut at = start;
    for number in &numbers[..e] {
        at = lists.insert_ref(at, Coord(*number));
    }
    at
}

// The best of all stops of the local items, of which there is one at least. The first stop begins at the first item. Where it is not scored
// nothing is: a score of 0 at 0, as the rules have it.
pub fn sweep_stops(
    positions: &[u32],
    numbers: &[u32],
    w: u64,
    last: u32,
    lists: &mut MapperLists<'_>,
    start: Slide,
) -> Swept
    requires { Begin positions.now numbers.now w lists.old start }
    ensures { Whole (flags_of lists.old.counts.now) positions.now numbers.now w last result }
{
    let p = u64::from(positions[0]);
    let e = keys::count_below(positions, p + w);
    let from = Stop {
        b: 0,
        e,
        p: Base(p),
    };
    if goes_on(positions, last, from) {
        let at = fill(numbers, lists, start, e);
        let first = Best {
            shared: at.shared,
            first: Base(p),
            last: Base(p),
        };
        return run(positions, numbers, w, last, lists, at, from, first);
    }
    Swept {
        best: Best {
            shared: 0,
            first: Base(0),
            last: Base(0),
        },
        windows: 0,
    }
}
