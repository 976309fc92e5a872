// The work of the interval finder on hits that passed its checks, over keys of exactly their number.
ghost use Rattle.std.specs.Prelude.{◌≡◌, ◌<◌, length, replicate};
ghost use Rattle.rules.specs.Finder.{interval_found};
ghost use Rattle.candidate_ranges.specs.Ranges.{Room};
ghost use Rattle.candidate_window.specs.Work.{Worked};
ghost use Rattle.candidate_intervals.specs.Given.{asked_of};

use base::Finding;
use candidate_ranges::candidates::CandidateLists;
use interval_cover::Cover;
use interval_hits::IntervalHits;

// The keys of the kept intervals are gathered and sorted, what they cover is listed, and the keys are cleared.
pub fn work(
    hits: IntervalHits<'_>,
    minimum: u32,
    opens: &mut [u64],
    closes: &mut [u64],
    lists: &mut CandidateLists<'_>,
) -> Finding
    requires some { 0 < minimum }
    requires opens { length opens.old ≡ length hits.contigs.now }
    requires closes { length closes.old ≡ length hits.contigs.now }
    requires room { Room (length hits.contigs.now) lists.old }
    ensures worked { Worked (asked_of hits.entry minimum) (interval_found (asked_of hits.entry minimum)) lists.old lists.new result }
    ensures opens { opens.new ≡ replicate (length hits.entry.contigs.now) 0 }
    ensures closes { closes.new ≡ replicate (length hits.entry.contigs.now) 0 }
{
    let kept = hits.gather(opens, closes);
    let n = kept.intervals;
    let cover = Cover {
        opens: &opens[..n],
        closes: &closes[..n],
        minimum: minimum as usize,
    };
    let count = cover.list(lists);
    opens.fill(0);
    closes.fill(0);
    Finding {
        count: count as u32,
        hits: kept.hits as u32,
    }
}
