// The kept intervals as two lists of keys, those of their starts and those of their ends. Empty intervals are passed over.
#![tactic(auto)]

ghost use Rattle.std.specs.Prelude.{◌≡◌, ◌+◌, ◌^◌, ◌≤◌, ◌<◌, ℕ, length, get_or};
ghost use Rattle.rules.specs.Limits.{item_limit};
ghost use Rattle.rules.specs.Lists.{sum};
ghost use Rattle.interval_hits.specs.Keys.{hits_of, forward, Put};

use buckets::halves::key_of;
use candidate_hits::none_dropped;
use paired_keys::sort_paired;

// Puts at n the keys of the intervals among these hits, and returns where the next go. By index: what is written through an iterator is not known to the proof afterwards. Over slices: it is lent
// parts of the hits.
fn put_keys(
    contigs: &[u32],
    starts: &[u32],
    ends: &[u32],
    opens: &mut [u64],
    closes: &mut [u64],
    n: usize,
) -> usize
    requires starts { length contigs.now ≡ length starts.now }
    requires ends { length contigs.now ≡ length ends.now }
    requires open_room { n + length contigs.now ≤ length opens.old }
    requires close_room { n + length contigs.now ≤ length closes.old }
    ensures { Put (forward (hits_of contigs.now starts.now ends.now)) opens.old closes.old n opens.new closes.new result }
{
    let mut at = n;
    for k in 0..contigs.len() {
        let start = starts[k];
        let end = ends[k];
        if end <= start {
            continue;
        }
        opens[at] = key_of(contigs[k], start);
        closes[at] = key_of(contigs[k], end);
        at += 1;
    }
    at
}

// The keys of intervals' starts and those of their ends, side by side.
#[derive(Drop)]
struct IntervalKeys<'a> {
    opens: &'a mut [u64],
    closes: &'a mut [u64],
}

impl IntervalKeys<'_> {
    ghost use Rattle.std.specs.Prelude.{◌≡◌, ◌+◌, length};
    ghost use Rattle.interval_hits.specs.Hits.{Room, PutAll, Sorted};

    // Puts at n the keys of the intervals among these hits, and returns where the next go.
    fn put(&mut self, contigs: &[u32], starts: &[u32], ends: &[u32], n: usize) -> usize
        requires starts { length contigs.now ≡ length starts.now }
        requires ends { length contigs.now ≡ length ends.now }
        requires room { Room (n + length contigs.now) self.old }
        ensures { PutAll (forward (hits_of contigs.now starts.now ends.now)) self.old n self.new result }
    {
        put_keys(contigs, starts, ends, self.opens, self.closes, n)
    }

    // Sorts the first n of each.
    fn sort(&mut self, n: usize)
        requires { Room n self.old }
        ensures { Sorted n self.old self.new }
    {
        sort_paired(&mut self.opens[..n], &mut self.closes[..n]);
    }
}

// How many intervals have their keys at the front of the two lists, and how many hits were kept.
#[derive(Clone, Copy)]
pub struct Kept {
    pub intervals: usize,
    pub hits: usize,
}

// Interval hits that passed the checks. Those of each query hash are one group, and stand one group after the other; groups shorter than the
// threshold are kept.
#[derive(Clone, Copy)]
pub struct IntervalHits<'a> {
    pub groups: &'a [u32],
    pub contigs: &'a [u32],
    pub starts: &'a [u32],
    pub ends: &'a [u32],
    pub threshold: u64,
    ghost few: { length contigs.now ≤ item_limit },
    ghost same_starts: { length contigs.now ≡ length starts.now },
    ghost same_ends: { length contigs.now ≡ length ends.now },
    ghost all: { sum groups.now ≡ length contigs.now },
    ghost near: { (i : ℕ) → get_or ends.now i 0 < 2 ^ 32 },
}

impl IntervalHits<'_> {
    ghost use Rattle.std.specs.Prelude.{◌≤◌, length};
    ghost use Rattle.interval_hits.specs.Hits.{Room, Filled, Gathered};

    // Goes group by group, and passes over those that are not shorter than the threshold.
    fn fill_groups(self, keys: &mut IntervalKeys<'_>) -> Kept
        requires { Room (length self.contigs.now) keys.old }
        ensures { Filled self.entry keys.old keys.new result }
    {
        let mut intervals = 0;
        let mut hits = 0;
        let mut at = 0;
        for group in self.groups {
            let from = at;
            at += *group as usize;
            if self.threshold <= u64::from(*group) {
                continue;
            }
            intervals = keys.put(
                &self.contigs[from..at],
                &self.starts[from..at],
                &self.ends[from..at],
                intervals,
            );
            hits += *group as usize;
        }
        Kept { intervals, hits }
    }

    // Puts the keys of the intervals of the groups shorter than the threshold at the fronts, as one group where none is dropped.
    fn fill(self, keys: &mut IntervalKeys<'_>) -> Kept
        requires { Room (length self.contigs.now) keys.old }
        ensures { Filled self.entry keys.old keys.new result }
    {
        if none_dropped(self.groups, self.threshold) {
            let intervals = keys.put(self.contigs, self.starts, self.ends, 0);
            return Kept {
                intervals,
                hits: self.contigs.len(),
            };
        }
        self.fill_groups(keys)
    }

    // Puts the keys of the kept intervals at the fronts, each list in order.
    pub fn gather(self, opens: &mut [u64], closes: &mut [u64]) -> Kept
        requires opens { length self.contigs.now ≤ length opens.old }
        requires closes { length self.contigs.now ≤ length closes.old }
        ensures { Gathered self.entry opens.new closes.new result }
    {
        let mut keys = IntervalKeys { opens, closes };
        let kept = self.fill(&mut keys);
        keys.sort(kept.intervals);
        kept
    }
}
