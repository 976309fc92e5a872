// A script of inserts and deletes over the slide mapper: pivot and shared count after each step. The outward call stands here; below it
// are the checks, which touch no buffer; `script_work` does the work, which starts and leaves its buffers cleared.
#![tactic(auto)]

mod checks;
mod walk;

ghost use Rattle.rules.specs.Calls.{ScriptPromise};
ghost use Rattle.script_work.specs.Work.{script_of};
ghost use Rattle.script.specs.Given.{lent_of};

use base::{Refusal, Slide};
use checks::{Input, Lengths};
use script_work::asked::{Query, Steps};
use script_work::looks::Looks;

// Step j inserts (kind 1) or deletes (kind 0) the hash at coords[indexes[j]]. Pivot and shared count after each step stand at the front
// of the two output lists, and the last pair is returned; or the first refusal with its place, and every list as it was.
// Lent lists want: counts an entry per coordinate, words one per 64 coordinates, summary one per 64 words, pivots and shareds one per
// step. What they hold before does not matter; counts, words and summary are left zero that far, and nothing past it is touched.
// The lists are parameters one by one: callers hold them apart, and the calls for C hand them on so.
pub fn script(
    query: &[u64],
    coords: &[u64],
    indexes: &[u32],
    kinds: &[u8],
    counts: &mut [u32],
    words: &mut [u64],
    summary: &mut [u64],
    pivots: &mut [u32],
    shareds: &mut [u32],
) -> Result<Slide, Refusal>
    ensures { ScriptPromise (script_of query.now coords.now indexes.now kinds.now) result (lent_of counts.old words.old summary.old pivots.old shareds.old) (lent_of counts.new words.new summary.new pivots.new shareds.new) }
{
    let mut places = [0u32; 4096];
    let input = Input {
        query,
        coords,
        indexes,
        kinds,
    };
    let lent = Lengths {
        counts: counts.len(),
        words: words.len(),
        summary: summary.len(),
        pivots: pivots.len(),
        shareds: shareds.len(),
    };
    checks::check(input, lent, &mut places)?;
    let needed = Lengths::needed(coords.len(), indexes.len());
    let query = Query {
        hashes: query,
        coords,
        places: &places,
    };
    let steps = Steps { indexes, kinds };
    let mut looks = Looks { pivots, shareds };
    Ok(script_work::clear_and_work(
        query,
        steps,
        &mut counts[..needed.counts],
        &mut words[..needed.words],
        &mut summary[..needed.summary],
        &mut looks,
    ))
}
