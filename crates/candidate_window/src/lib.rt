// The minimizer finder: of a fragment's hits in the reference, the ranges where the fragment may lie. The outward call stands here; below it
// are the checks, which touch no list, and the work over keys of exactly the needed number.
#![tactic(auto)]

pub mod checks;
pub mod work;

ghost use Rattle.rules.specs.Calls.{MinimizerFinderPromise};
ghost use Rattle.candidate_window.specs.Given.{finder_of, lent_of};

use base::{Finding, Refusal};
use candidate_hits::Hits;
use candidate_ranges::candidates::CandidateLists;

// The hits of each query hash are one group, and stand one group after the other in `contigs` and `positions`, in any order. Groups shorter
// than `threshold` are kept. Each run of `minimum` neighbours among the kept hits, within `length` bases of one contig, gives the range
// of starts of a fragment that covers it; ranges that share a position are joined. They stand, by contig and then by start, at the front of
// the three output lists; how many they are is returned, with the number of kept hits; or the first refusal, and every list as it was.
// Lent lists want an entry per hit. What they hold before does not matter; `keys` is left zero that far, and nothing past it or past the
// ranges is touched.
// The lists are parameters one by one: callers hold them apart, and the calls for C hand them on so.
pub fn minimizer_finder(
    groups: &[u32],
    contigs: &[u32],
    positions: &[u32],
    threshold: u64,
    minimum: u32,
    length: u32,
    keys: &mut [u64],
    seqs: &mut [u32],
    lows: &mut [u32],
    highs: &mut [u32],
) -> Result<Finding, Refusal>
    ensures { MinimizerFinderPromise (finder_of groups.now contigs.now positions.now threshold minimum length) result (lent_of keys.old seqs.old lows.old highs.old) (lent_of keys.new seqs.new lows.new highs.new) }
{
    let n = contigs.len();
    checks::check(
        groups,
        n,
        &[n, positions.len()],
        minimum,
        &[keys.len(), seqs.len(), lows.len(), highs.len()],
    )?;
    let hits = Hits {
        groups,
        contigs,
        positions,
        threshold,
    };
    let mut lists = CandidateLists {
        contigs: seqs,
        starts: lows,
        ends: highs,
    };
    Ok(work::work(hits, minimum, length, &mut keys[..n], &mut lists))
}
