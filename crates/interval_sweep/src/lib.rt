// The interval sweep (the original's `do_l2_mapping_minmer_intervals`): the place in a range that shares the most hashes with the query. The
// outward call stands here; below it are the checks, which touch no buffer, and the work, which starts and leaves its buffers cleared.
#![tactic(auto)]

mod answer;
mod checked;
mod input;

ghost use Rattle.rules.specs.Calls.{IntervalPromise};
ghost use Rattle.interval_sweep.specs.Given.{sweep_of, lent_of};

use base::{Outcome, Range, Refusal, Settings};
use checked::Checked;
use input::Input;
use interval_events::intervals::Intervals;
use sweep::{Lengths, Table};

// The intervals are told by their hashes, starts and ends, starts never descending; the query ascends; the table has an identity and an upper
// bound for each count of shared hashes. The answer is a place, none, or the first refusal with its place, where every list is as it was.
// Lent lists want, where m is the number of query hashes and intervals: keys, counts and coords m entries, words one per 64 of m, summary one
// per 64 words, events two per interval. What they hold before does not matter; they are left zero that far, and nothing past it is touched.
// The lists that are read have one lifetime by name, since one struct holds them.
// The lists are parameters one by one: callers hold them apart, and the calls for C hand them on so.
pub fn interval_sweep<'a>(
    settings: Settings,
    range: Range,
    query: &'a [u64],
    hashes: &'a [u64],
    starts: &'a [u32],
    ends: &'a [u32],
    identities: &'a [f64],
    uppers: &'a [f64],
    minimum: f64,
    keys: &mut [u64],
    counts: &mut [u32],
    coords: &mut [u32],
    words: &mut [u64],
    summary: &mut [u64],
    events: &mut [u64],
) -> Result<Outcome, Refusal>
    ensures { IntervalPromise (sweep_of query.now hashes.now starts.now ends.now settings range identities.now uppers.now minimum) result (lent_of keys.old counts.old coords.old words.old summary.old) (lent_of keys.new counts.new coords.new words.new summary.new) events.old events.new }
{
    let table = Table { identities, uppers };
    let input = Input {
        settings,
        query,
        hashes,
        starts,
        ends,
        table,
    };
    let lent = Lengths {
        keys: keys.len(),
        counts: counts.len(),
        coords: coords.len(),
        words: words.len(),
        summary: summary.len(),
    };
    input.check(lent, events.len())?;
    let n = hashes.len();
    let needed = Lengths::needed(query.len() + n);
    let checked = Checked {
        settings,
        query,
        intervals: Intervals {
            hashes,
            starts,
            ends,
        },
        table,
    };
    Ok(answer::clear_and_answer(
        checked,
        range,
        minimum,
        &mut keys[..needed.keys],
        &mut counts[..needed.counts],
        &mut coords[..needed.coords],
        &mut words[..needed.words],
        &mut summary[..needed.summary],
        &mut events[..2 * n],
    ))
}
