// The positions that enough intervals cover, from the keys of their starts and of their ends, each list in order. Where i starts and j ends
// are passed, i - j intervals are active; each contig begins and ends with none, so no count is set back.
#![tactic(auto)]

ghost use Rattle.std.specs.Prelude.{◌≡◌, ◌≤◌, ◌<◌, length};
ghost use Rattle.std.proofs.Props.{props};
ghost use Rattle.base.specs.Props.{Asc-prop};
ghost use Rattle.candidate_ranges.specs.Ranges.{range_of, begun, Room, Listed};
ghost use Rattle.interval_cover.specs.Intervals.{Intervals};

use candidate_hits::{at_of, contig_of};
use candidate_ranges::candidates::{CandidateLists, Held, L1Candidate};

// How far the sweep is once all starts are passed: what it holds, the last key, and how many ends are passed.
#[derive(Clone, Copy)]
pub struct Passed {
    pub held: Held,
    pub key: u64,
    pub ends: usize,
}

// The keys of intervals' starts and ends, and how many intervals are to cover a position.
#[derive(Clone, Copy)]
pub struct Cover<'a> {
    pub opens: &'a [u64],
    pub closes: &'a [u64],
    pub minimum: usize,
    ghost intervals: { Intervals opens.now closes.now } by { Prim.hlevel (props, Asc-prop) },
    ghost some: { 0 < minimum },
}

impl Cover<'_> {
    ghost use Rattle.std.specs.Prelude.{◌≡◌, ◌≤◌, length};
    ghost use Rattle.candidate_ranges.specs.Ranges.{range_of, begun, Room, Listed};
    ghost use Rattle.interval_cover.specs.Cover.{Between, stretch, Extended, ranges_of, Sweeping, Swept};

    // The positions from a key to before the next.
    fn between(key: u64, next: u64) -> L1Candidate
        requires { Between key next }
        ensures { range_of result ≡ stretch key next }
    {
        L1Candidate {
            contig: contig_of(key),
            start: at_of(key),
            end: at_of(next) - 1,
        }
    }

    // Adds the positions from a key to before the next, where enough intervals are active.
    fn extend(
        self,
        held: Held,
        active: usize,
        key: u64,
        next: u64,
        lists: &mut CandidateLists<'_>,
    ) -> Held
        requires between { self.minimum ≤ active → Between key next }
        requires room { Room (begun held) lists.old }
        ensures { Extended self.entry.minimum active key next held lists.old lists.new result }
    {
        if active < self.minimum {
            return held;
        }
        held.push(Self::between(key, next), 1, lists)
    }

    // Goes over the positions where an interval starts or ends, up to the last start: what is covered up to a position is added, then all keys
    // there are passed. Ends are left wherever starts are. Which of the two comes next is as good as random, so the first key of each is passed
    // with no branch.
    fn pass_starts(self, lists: &mut CandidateLists<'_>) -> Passed
        requires { Room (length self.opens.now) lists.old }
        ensures { Sweeping self.entry lists.old lists.new result.held result.key (length self.entry.opens.now) result.ends }
    {
        let n = self.opens.len();
        let mut held = Held::none();
        let mut key = 0;
        let mut i = 0;
        let mut j = 0;
        'positions: while i < n {
            let start = self.opens[i];
            let end = self.closes[j];
            let at = start.min(end);
            held = self.extend(held, i - j, key, at, lists);
            j += usize::from(end == at);
            'ends: while j < n {
                let x = self.closes[j];
                if x != at {
                    break 'ends;
                }
                j += 1;
            }
            i += usize::from(start == at);
            'starts: while i < n {
                let x = self.opens[i];
                if x != at {
                    break 'starts;
                }
                i += 1;
            }
            key = at;
        }
        Passed { held, key, ends: j }
    }

    // Goes over all positions; past the last start only ends are left. By index, as above: the inner loops go on where the outer left off.
    fn sweep(self, lists: &mut CandidateLists<'_>) -> Held
        requires { Room (length self.opens.now) lists.old }
        ensures { Swept self.entry lists.old lists.new result }
    {
        let n = self.opens.len();
        let passed = self.pass_starts(lists);
        let mut held = passed.held;
        let mut key = passed.key;
        let mut j = passed.ends;
        'positions: while j < n {
            let at = self.closes[j];
            held = self.extend(held, n - j, key, at, lists);
            'ends: while j < n {
                let x = self.closes[j];
                if x != at {
                    break 'ends;
                }
                j += 1;
            }
            key = at;
        }
        held
    }

    // Lists the ranges, and returns how many they are.
    pub fn list(self, lists: &mut CandidateLists<'_>) -> usize
        requires { Room (length self.opens.now) lists.old }
        ensures listed { Listed (ranges_of self.entry.minimum self.entry.opens.now self.entry.closes.now) lists.old lists.new result }
        ensures few { result ≤ length self.entry.opens.now }
    {
        self.sweep(lists).finish(lists)
    }
}
