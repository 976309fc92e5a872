// One step of a walk over two ascending lists.
ghost use Rattle.base.specs.Lists.{StrictAsc};
ghost use Rattle.base.specs.Props.{StrictAsc-prop};

// Hashes that ascend, each once.
#[derive(Clone, Copy)]
pub struct Ascending<'a> {
    pub hashes: &'a [u64],
    ghost asc: { StrictAsc hashes.now } by { StrictAsc-prop hashes.now },
}

impl Ascending<'_> {
    ghost use Rattle.std.specs.Prelude.{◌≡◌, ◌+◌, ◌-◌, ◌≤◌, ◌<◌, min, length};
    ghost use Rattle.rules.specs.Score.{number_of};

    // How many of the four hashes from `at` on are below this one, by a sum with no branch.
    fn below_in_four(self, hash: u64, at: usize) -> usize
        requires reached { at ≤ number_of self.hashes.now hash }
        requires inside { at + 4 ≤ length self.hashes.now }
        ensures { at + result ≡ min (at + 4) (number_of self.entry.hashes.now hash) }
    {
        let four = &self.hashes[at..at + 4];
        let mut below = 0;
        for other in four {
            below += usize::from(*other < hash);
        }
        below
    }

    // How many of the hashes are below this one, one hash to a turn.
    fn reach_rest(self, hash: u64, from: usize) -> usize
        requires { from ≤ number_of self.hashes.now hash }
        ensures { result ≡ number_of self.entry.hashes.now hash }
    {
        for at in from..self.hashes.len() {
            if hash <= self.hashes[at] {
                return at;
            }
        }
        self.hashes.len()
    }

    // How many of the hashes are below this one, which are no less than `from`: the walk passes them, four to a turn. One to a turn, its
    // branch is guessed wrong about once for each hash; a walk that moves by a sum alone waits at each for the one before it, which is
    // dearer. After four that are all below nothing waits for the sum.
    pub fn reach(self, hash: u64, from: usize) -> usize
        requires { from ≤ number_of self.hashes.now hash }
        ensures { result ≡ number_of self.entry.hashes.now hash }
    {
        let mut at = from;
        while at + 4 <= self.hashes.len() {
            let n = self.below_in_four(hash, at);
            if n < 4 {
                return at + n;
            }
            at += 4;
        }
        self.reach_rest(hash, at)
    }
}
