// Runs of neighbours among keys in ascending order.
ghost use Rattle.std.specs.Prelude.{◌≡◌, ◌≤◌, length, drop};
ghost use Rattle.base.specs.Lists.{Asc};
ghost use Rattle.rules.specs.Limits.{item_limit};
ghost use Rattle.rules.specs.Finder.{run_range, run_ranges, join_all};
ghost use Rattle.base.specs.Props.{Asc-prop};
ghost use Rattle.candidate_ranges.specs.Ranges.{ranges_in, Room, Listed};

use crate::candidates::{CandidateLists, Held, L1Candidate};
use candidate_hits::{at_of, contig_of};

// The starts of a fragment of this length that covers the run from a to z; none where the run is too long, or not in one contig.
fn range_of_run(a: u64, z: u64, fragment: u64) -> Option<L1Candidate>
    requires { a ≤ z }
    ensures { run_range fragment a z ≡ ranges_in result }
{
    if fragment <= z - a || contig_of(a) != contig_of(z) {
        return None;
    }
    Some(L1Candidate {
        contig: contig_of(a),
        start: (u64::from(at_of(z)) + 1).saturating_sub(fragment) as u32,
        end: at_of(a),
    })
}

// A run begins at each key that has `span` keys after it, where span is one less than the minimum of hits; and a fragment of this length is to
// cover it.
#[derive(Clone, Copy)]
pub struct Runs<'a> {
    pub keys: &'a [u64],
    pub span: usize,
    pub fragment: u64,
    ghost asc: { Asc keys.now } by { Asc-prop keys.now },
    ghost few: { length keys.now ≤ item_limit },
}

impl Runs<'_> {
    // Lists the ranges of all runs, and returns how many they are.
    pub fn list(self, lists: &mut CandidateLists<'_>) -> usize
        requires { Room (length self.keys.now) lists.old }
        ensures listed { Listed (join_all 0 (run_ranges self.entry.fragment self.entry.keys.now (drop self.entry.span self.entry.keys.now))) lists.old lists.new result }
        ensures few { result ≤ length self.entry.keys.now }
    {
        let mut held = Held::none();
        for i in 0..self.keys.len().saturating_sub(self.span) {
            let Some(next) = range_of_run(self.keys[i], self.keys[i + self.span], self.fragment)
            else {
                continue;
            };
            held = held.push(next, 0, lists);
        }
        held.finish(lists)
    }
}
