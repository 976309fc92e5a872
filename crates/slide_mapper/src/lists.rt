// The mapper over its three lent lists.
ghost use Rattle.slide_mapper.specs.State.{Held};
ghost use Rattle.summary_bits.specs.Props.{Summary-prop};
ghost use Rattle.std.proofs.Props.{props};

use base::{Coord, Slide};

// The lists that the mapper is lent, which agree with each other: count words, the union's bits, and their summary.
#[derive(Drop)]
pub struct MapperLists<'a> {
    pub counts: &'a mut [u32],
    pub words: &'a mut [u64],
    pub summary: &'a mut [u64],
    ghost held: { Held counts.now words.now summary.now } by { Prim.hlevel (props, Summary-prop) },
}

impl MapperLists<'_> {
    ghost use Rattle.std.specs.Prelude.{◌+◌, ◌^◌, ◌<◌, length, get_or};
    ghost use Rattle.slide_mapper.specs.Lent.{SameLists, AtPivot, Entered, Left};

    // An item enters.
    pub fn insert_ref(&mut self, at: Slide, coord: Coord) -> Slide
        requires at { AtPivot self.old at }
        requires inside { coord.0 < length self.old.counts.now }
        requires room { get_or self.old.counts.now coord.0 0 + 2 < 2 ^ 32 }
        ensures same { SameLists self.old self.new }
        ensures entered { Entered self.old at coord.0 self.new result }
    {
        crate::insert_ref(self.counts, self.words, self.summary, at, coord)
    }

    // An item leaves.
    pub fn delete_ref(&mut self, at: Slide, coord: Coord) -> Slide
        requires at { AtPivot self.old at }
        requires inside { coord.0 < length self.old.counts.now }
        ensures same { SameLists self.old self.new }
        ensures left { Left self.old at coord.0 self.new result }
    {
        crate::delete_ref(self.counts, self.words, self.summary, at, coord)
    }
}
