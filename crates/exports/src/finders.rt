// The finders.
ghost use Rattle.std.specs.Prelude.{◌≡◌};
ghost use Rattle.rules.specs.Told.{told_finder};
ghost use Rattle.candidate_window.specs.Given.{finder_of, lent_of};
ghost use Rattle.candidate_intervals.specs.Given as intervals;
ghost use Rattle.exports.specs.Finder.{finder_out_of, MinimizerFinderExported, IntervalFinderExported};

use base::{Finding, Refusal};

// Number 0: done, at place 0, with the count of candidates and the seed hits. Any other number: refused at that place, and both are 0.
#[repr(C)]
#[derive(Clone, Copy, Default)]
pub struct FinderOut {
    pub number: u32,
    pub place: u32,
    pub count: u32,
    pub hits: u32,
}

impl From<Result<Finding, Refusal>> for FinderOut {
    ghost from_gives = { λ answer out. out ≡ finder_out_of (told_finder answer) };

    #[tactic(auto, unfolding(crate::specs::Finder::finder_out_of, rules::specs::Told::told_finder, rules::specs::Told::told_refused, rules::specs::Told::told_done))]
    fn from(answer: Result<Finding, Refusal>) -> Self {
        match answer {
            Err(refusal) => FinderOut {
                number: u32::from(refusal.reason.number()),
                place: refusal.place,
                ..FinderOut::default()
            },
            Ok(Finding { count, hits }) => FinderOut {
                number: 0,
                place: 0,
                count,
                hits,
            },
        }
    }
}

#[tactic(auto, using(crate::proofs::Finder::minimizer_finder_exported))]
#[unsafe(no_mangle)]
pub extern "C" fn kelonbaro_minimizer_finder(
    groups: &[u32],
    contigs: &[u32],
    positions: &[u32],
    minimum: u32,
    length: u32,
    threshold: u64,
    keys: &mut [u64],
    seqs: &mut [u32],
    lows: &mut [u32],
    highs: &mut [u32],
) -> FinderOut
    ensures { MinimizerFinderExported (finder_of groups.now contigs.now positions.now threshold minimum length) result (lent_of keys.old seqs.old lows.old highs.old) (lent_of keys.new seqs.new lows.new highs.new) }
{
    FinderOut::from(candidate_window::minimizer_finder(
        groups, contigs, positions, threshold, minimum, length, keys, seqs, lows, highs,
    ))
}

#[tactic(auto, using(crate::proofs::Finder::interval_finder_exported))]
#[unsafe(no_mangle)]
pub extern "C" fn kelonbaro_interval_finder(
    groups: &[u32],
    contigs: &[u32],
    starts: &[u32],
    ends: &[u32],
    minimum: u32,
    threshold: u64,
    opens: &mut [u64],
    closes: &mut [u64],
    seqs: &mut [u32],
    lows: &mut [u32],
    highs: &mut [u32],
) -> FinderOut
    ensures { IntervalFinderExported (intervals.finder_of groups.now contigs.now starts.now ends.now threshold minimum) result (lent_of opens.old seqs.old lows.old highs.old) (lent_of opens.new seqs.new lows.new highs.new) closes.old closes.new }
{
    FinderOut::from(candidate_intervals::interval_finder(
        groups, contigs, starts, ends, threshold, minimum, opens, closes, seqs, lows, highs,
    ))
}
