// The work of the minimizer finder on hits that passed its checks, over keys of exactly their number.
ghost use Rattle.std.specs.Prelude.{◌≡◌, ◌<◌, length, replicate};
ghost use Rattle.rules.specs.Finder.{minimizer_found};
ghost use Rattle.candidate_ranges.specs.Ranges.{Room};
ghost use Rattle.candidate_window.specs.Given.{asked_of};
ghost use Rattle.candidate_window.specs.Work.{Worked};

use base::Finding;
use candidate_hits::Hits;
use candidate_ranges::candidates::CandidateLists;
use candidate_ranges::runs::Runs;

// The keys of the kept hits are gathered and sorted, their runs are listed, and the keys are cleared.
pub fn work(
    hits: Hits<'_>,
    minimum: u32,
    fragment: u32,
    keys: &mut [u64],
    lists: &mut CandidateLists<'_>,
) -> Finding
    requires some { 0 < minimum }
    requires exact { length keys.old ≡ length hits.contigs.now }
    requires room { Room (length hits.contigs.now) lists.old }
    ensures worked { Worked (asked_of hits.entry minimum fragment) (minimizer_found (asked_of hits.entry minimum fragment)) lists.old lists.new result }
    ensures clear { keys.new ≡ replicate (length hits.entry.contigs.now) 0 }
{
    let n = hits.gather(keys);
    let runs = Runs {
        keys: &keys[..n],
        span: minimum as usize - 1,
        fragment: u64::from(fragment),
    };
    let count = runs.list(lists);
    keys.fill(0);
    Finding {
        count: count as u32,
        hits: n as u32,
    }
}
