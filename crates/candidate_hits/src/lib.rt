// The kept hits as keys: contig × 2^32 + position, so that keys ascend by contig, then by position.
#![tactic(auto)]

ghost use Rattle.std.specs.Prelude.{◌≡◌, ◌^◌, ◌≤◌, ◌<◌, ℕ, true, length, get_or};
ghost use Rattle.base.specs.Lists.{All};
ghost use Rattle.base.specs.Sort.{sort_of};
ghost use Rattle.keys.specs.Lists.{Fronted};
ghost use Rattle.rules.specs.Limits.{item_limit};
ghost use Rattle.rules.specs.Lists.{sum};
ghost use Rattle.rules.specs.Finder.{kept, key_contig, key_at, keys_of};

use buckets::halves;
use buckets::halves::key_of;

// A key is one number, since its order is what is wanted; its halves are told in a line each.
pub fn contig_of(key: u64) -> u32
    ensures { result ≡ key_contig key }
{
    (key / 4294967296) as u32
}

pub fn at_of(key: u64) -> u32
    ensures { result ≡ key_at key }
{
    (key % 4294967296) as u32
}

// Whether each group is shorter than the threshold, which the longest tells with no branch on the others. Then all hits are as one group: most
// groups have a hit or none, so that their ends are costly to tell.
pub fn none_dropped(groups: &[u32], threshold: u64) -> bool
    ensures { result ≡ true → All (λ g. g < threshold) groups.now }
{
    let longest = base::largest(groups);
    u64::from(longest) < threshold
}

// Puts the keys of these hits, in the order of the hits. By index: what is written through an iterator is not known to the proof afterwards.
fn put_keys(contigs: &[u32], positions: &[u32], keys: &mut [u64])
    requires parallel { length contigs.now ≡ length positions.now }
    requires exact { length keys.old ≡ length contigs.now }
    ensures { keys.new ≡ keys_of contigs.now positions.now }
{
    for k in 0..keys.len() {
        keys[k] = key_of(contigs[k], positions[k]);
    }
}

// The keys of all these hits, sorted. Buckets pay from some hundred keys on.
fn put_sorted(contigs: &[u32], positions: &[u32], keys: &mut [u64])
    requires few { length contigs.now ≤ item_limit }
    requires parallel { length contigs.now ≡ length positions.now }
    requires exact { length keys.old ≡ length contigs.now }
    ensures { keys.new ≡ sort_of (keys_of contigs.now positions.now) }
{
    if 512 <= contigs.len() {
        halves::sort(contigs, positions, keys);
        return;
    }
    put_keys(contigs, positions, keys);
    keys::sort(keys);
}

// Hits that passed the checks. Those of each query hash are one group, and stand one group after the other; groups shorter than the
// threshold are kept.
#[derive(Clone, Copy)]
pub struct Hits<'a> {
    pub groups: &'a [u32],
    pub contigs: &'a [u32],
    pub positions: &'a [u32],
    pub threshold: u64,
    ghost few: { length contigs.now ≤ item_limit },
    ghost parallel: { length contigs.now ≡ length positions.now },
    ghost all: { sum groups.now ≡ length contigs.now },
}

impl Hits<'_> {
    // Puts the keys of the kept hits at the front, and returns how many they are. Neighbouring kept groups are put as one, the `run` hits that
    // begin at `from`: dropped groups are rare, so that whether one ends the run is guessed right.
    fn put_kept(self, keys: &mut [u64]) -> usize
        requires { length self.contigs.now ≤ length keys.old }
        ensures { Fronted (kept self.entry.threshold self.entry.groups.now (keys_of self.entry.contigs.now self.entry.positions.now)) keys.old keys.new result }
    {
        let mut n = 0;
        let mut from = 0;
        let mut run = 0;
        for group in self.groups {
            let count = *group as usize;
            if u64::from(*group) < self.threshold {
                run += count;
                continue;
            }
            let end = from + run;
            put_keys(
                &self.contigs[from..end],
                &self.positions[from..end],
                &mut keys[n..n + run],
            );
            n += run;
            from = end + count;
            run = 0;
        }
        let end = from + run;
        put_keys(
            &self.contigs[from..end],
            &self.positions[from..end],
            &mut keys[n..n + run],
        );
        n + run
    }

    // Puts the keys of the kept hits at the front, sorted, and returns how many they are.
    pub fn gather(self, keys: &mut [u64]) -> usize
        requires { length self.contigs.now ≤ length keys.old }
        ensures { Fronted (sort_of (kept self.entry.threshold self.entry.groups.now (keys_of self.entry.contigs.now self.entry.positions.now))) keys.old keys.new result }
    {
        if none_dropped(self.groups, self.threshold) {
            let n = self.contigs.len();
            put_sorted(self.contigs, self.positions, &mut keys[..n]);
            return n;
        }
        let n = self.put_kept(keys);
        keys::sort(&mut keys[..n]);
        n
    }
}
