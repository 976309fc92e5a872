// The hashes of a call: the query's, with the items' behind them.
ghost use Rattle.std.specs.Prelude.{◌+◌, ◌≤◌, length};

#[derive(Clone, Copy)]
pub struct Hashes<'a> {
    pub query: &'a [u64],
    pub items: &'a [u64],
    ghost few: { length query.now + length items.now ≤ 65536 },
}

impl Hashes<'_> {
    ghost use Rattle.std.specs.Prelude.{◌≡◌, ◌++◌, ◌<◌, get_or};

    pub fn at(self, i: usize) -> u64
        requires { i < length self.query.now + length self.items.now }
        ensures { result ≡ get_or (self.entry.query.now ++ self.entry.items.now) i 0 }
    {
        let k = self.query.len();
        if i < k {
            self.query[i]
        } else {
            self.items[i - k]
        }
    }
}
