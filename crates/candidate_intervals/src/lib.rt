// The interval finder: of a fragment's interval hits in the reference, the ranges that enough of them cover. The outward call stands here; below
// it is the work over keys of exactly the needed number. The checks, which touch no list, are those of the minimizer finder.
#![tactic(auto)]

mod work;

ghost use Rattle.rules.specs.Calls.{IntervalFinderPromise};
ghost use Rattle.candidate_window.specs.Given.{lent_of};
ghost use Rattle.candidate_intervals.specs.Given.{finder_of};

use base::{Finding, Refusal};
use candidate_ranges::candidates::CandidateLists;
use candidate_window::checks;
use interval_hits::IntervalHits;

// The intervals of each query hash are one group, and stand one group after the other in `contigs`, `starts` and `ends`, in any order; an
// interval holds the positions from its start to before its end. Groups shorter than `threshold` are kept. The positions that `minimum` or more
// of the kept intervals cover, as ranges that do not touch, stand by contig and then by start at the front of the three output lists; how many
// they are is returned, with the number of kept hits, empty intervals too; or the first refusal, and every list as it was.
// Lent lists want an entry per hit. What they hold before does not matter; `opens` and `closes`, the keys of starts and of ends, are left zero
// that far, and nothing past it or past the ranges is touched.
// The lists are parameters one by one: callers hold them apart, and the calls for C hand them on so.
pub fn interval_finder(
    groups: &[u32],
    contigs: &[u32],
    starts: &[u32],
    ends: &[u32],
    threshold: u64,
    minimum: u32,
    opens: &mut [u64],
    closes: &mut [u64],
    seqs: &mut [u32],
    lows: &mut [u32],
    highs: &mut [u32],
) -> Result<Finding, Refusal>
    ensures { IntervalFinderPromise (finder_of groups.now contigs.now starts.now ends.now threshold minimum) result (lent_of opens.old seqs.old lows.old highs.old) (lent_of opens.new seqs.new lows.new highs.new) closes.old closes.new }
{
    let n = contigs.len();
    checks::check(
        groups,
        n,
        &[n, starts.len(), ends.len()],
        minimum,
        &[
            opens.len(),
            seqs.len(),
            lows.len(),
            highs.len(),
            closes.len(),
        ],
    )?;
    let hits = IntervalHits {
        groups,
        contigs,
        starts,
        ends,
        threshold,
    };
    let mut lists = CandidateLists {
        contigs: seqs,
        starts: lows,
        ends: highs,
    };
    Ok(work::work(hits, minimum, &mut opens[..n], &mut closes[..n], &mut lists))
}
