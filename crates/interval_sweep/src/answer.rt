// The answer of an input that passed its checks: none at once where nothing can match, else the place of the best.
ghost use Rattle.std.specs.Prelude.{◌≡◌, ◌+◌, length};
ghost use Rattle.rules.specs.Place.{interval_answer};
ghost use Rattle.sweep.specs.Lent.{SameWork};
ghost use Rattle.interval_work.specs.Work.{Clear};
ghost use Rattle.interval_sweep.specs.Given.{asked};
ghost use Rattle.interval_sweep.specs.Answer.{Placeable, placed, Answered, Exact};

use crate::checked::Checked;
use base::{Outcome, Range, Stats};
use interval_work::Swept;
use sweep::Found;
use sweep::work::Work;

// The place of the best, unless no interval was taken. Zero may win here.
fn place(input: Checked<'_>, range: Range, minimum: f64, swept: Option<Swept>) -> Outcome
    requires { Placeable input range swept }
    ensures { Ok result ≡ placed input.entry range minimum swept }
{
    let Some(
        Swept {
            best,
            coords,
            items,
        },
    ) = swept
    else {
        return sweep::early();
    };
    let windows = u64::from(range.end) + 1 - u64::from(range.start);
    let stats = Stats {
        windows,
        coords,
        items,
    };
    let found = Found { best, stats };
    sweep::settle(
        input.settings.length,
        input.query.len(),
        input.table,
        minimum,
        found,
    )
}

// The answer, over work lists that are zero, which it leaves zero.
fn answer(
    input: Checked<'_>,
    range: Range,
    minimum: f64,
    work: &mut Work<'_>,
    events: &mut [u64],
) -> Outcome
    requires { Clear (length input.query.now + length input.intervals.hashes.now) (length input.intervals.hashes.now) work.old events.old }
    ensures same { SameWork work.old work.new }
    ensures answer { Ok result ≡ interval_answer (asked input.entry range minimum) }
    ensures clear { Clear (length input.entry.query.now + length input.entry.intervals.hashes.now) (length input.entry.intervals.hashes.now) work.new events.new }
{
    let Checked {
        settings,
        query,
        intervals,
        ..
    } = input;
    if settings.length < settings.kmer || query.is_empty() || range.end < range.start {
        return sweep::early();
    }
    let bounds = interval_work::local(intervals.starts, settings, range);
    let swept = interval_work::work(query, intervals, settings, range, bounds, work, events);
    place(input, range, minimum, swept)
}

// The same, whatever the work lists held. Over slices: the `Work` of parts of lists is made where these are the function's own.
pub fn clear_and_answer(
    input: Checked<'_>,
    range: Range,
    minimum: f64,
    keys: &mut [u64],
    counts: &mut [u32],
    coords: &mut [u32],
    words: &mut [u64],
    summary: &mut [u64],
    events: &mut [u64],
) -> Outcome
    requires { Exact (length input.query.now + length input.intervals.hashes.now) (length input.intervals.hashes.now) keys.old counts.old coords.old words.old summary.old events.old }
    ensures { Answered (asked input.entry range minimum) keys.new counts.new coords.new words.new summary.new events.new (Ok result) }
{
    let mut work = Work {
        keys,
        counts,
        coords,
        words,
        summary,
    };
    work.clear();
    events.fill(0);
    answer(input, range, minimum, &mut work, events)
}
