// The work lists of a sweep.
ghost use Rattle.std.specs.Prelude.{◌+◌, length};
ghost use Rattle.sweep.specs.Beginning.{Exact, Given, Clear, Begins};
ghost use Rattle.sweep.specs.Work.{Cleared};

use crate::Begun;

// The work lists that a sweep is lent, of the sizes that as many hashes of query and items need as there is room for in `keys`.
#[derive(Drop)]
pub struct Work<'a> {
    pub keys: &'a mut [u64],
    pub counts: &'a mut [u32],
    pub coords: &'a mut [u32],
    pub words: &'a mut [u64],
    pub summary: &'a mut [u64],
    ghost exact: { Exact (length keys.now) keys.now counts.now coords.now words.now summary.now },
}

impl Work<'_> {
    ghost use Rattle.sweep.specs.Lent.{SameWork, Zero, BeginsIn};

    // Clears them.
    pub fn clear(&mut self)
        ensures same { SameWork self.old self.new }
        ensures zero { Zero (length self.old.keys.now) self.new }
    {
        clear(
            self.keys,
            self.counts,
            self.coords,
            self.words,
            self.summary,
        );
    }

    // Numbers the hashes of query and items, and begins with the query alone. The numbers of the items stand in `coords` behind the query's.
    pub fn prepare(&mut self, query: &[u64], hashes: &[u64]) -> Begun
        requires given { Given query.now hashes.now }
        requires zero { Zero (length query.now + length hashes.now) self.old }
        ensures same { SameWork self.old self.new }
        ensures begins { BeginsIn query.now hashes.now self.new result }
    {
        prepare(
            query,
            hashes,
            self.keys,
            self.counts,
            self.coords,
            self.words,
            self.summary,
        )
    }
}

// Clears five lists of any lengths.
pub fn clear(
    keys: &mut [u64],
    counts: &mut [u32],
    coords: &mut [u32],
    words: &mut [u64],
    summary: &mut [u64],
)
    ensures keys { Cleared keys.old keys.new }
    ensures counts { Cleared counts.old counts.new }
    ensures coords { Cleared coords.old coords.new }
    ensures words { Cleared words.old words.new }
    ensures summary { Cleared summary.old summary.new }
{
    keys.fill(0);
    counts.fill(0);
    coords.fill(0);
    words.fill(0);
    summary.fill(0);
}

// Over the slices: of a list in the struct that one call has written, the next knows no more than the length.
fn prepare(
    query: &[u64],
    hashes: &[u64],
    keys: &mut [u64],
    counts: &mut [u32],
    coords: &mut [u32],
    words: &mut [u64],
    summary: &mut [u64],
) -> Begun
    requires { Given query.now hashes.now × Clear (length query.now + length hashes.now) keys.old counts.old coords.old words.old summary.old }
    ensures { Begins query.now hashes.now counts.new coords.new words.new summary.new result }
{
    let n = coordinates::coordinates(query, hashes, keys, counts, coords);
    let at = slide_mapper::begin(counts, words, summary);
    Begun {
        coords: n as u32,
        at,
    }
}
