// The reference's intervals.
ghost use Rattle.std.specs.Prelude.{◌≡◌, ◌^◌, ◌<◌, ℕ, length, get_or};
ghost use Rattle.base.specs.Lists.{Asc};
ghost use Rattle.base.specs.Props.{Asc-prop};

// The hash, the start and the end of each interval; starts never descend.
#[derive(Clone, Copy)]
pub struct Intervals<'a> {
    pub hashes: &'a [u64],
    pub starts: &'a [u32],
    pub ends: &'a [u32],
    ghost same_starts: { length starts.now ≡ length hashes.now },
    ghost same_ends: { length ends.now ≡ length hashes.now },
    ghost asc: { Asc starts.now } by { Asc-prop starts.now },
    ghost near_starts: { (i : ℕ) → get_or starts.now i 0 < 2 ^ 32 },
    ghost near_ends: { (i : ℕ) → get_or ends.now i 0 < 2 ^ 32 },
}

impl<'a> Intervals<'a> {
    ghost use Rattle.std.specs.Prelude.{◌≤◌, slice_range};

    // Those from one index up to another.
    pub fn part(self, from: usize, to: usize) -> Intervals<'a>
        requires order { from ≤ to }
        requires inside { to ≤ length self.hashes.now }
        ensures hashes { result.hashes.now ≡ slice_range self.entry.hashes.now from to }
        ensures starts { result.starts.now ≡ slice_range self.entry.starts.now from to }
        ensures ends { result.ends.now ≡ slice_range self.entry.ends.now from to }
    {
        Intervals {
            hashes: &self.hashes[from..to],
            starts: &self.starts[from..to],
            ends: &self.ends[from..to],
        }
    }
}
