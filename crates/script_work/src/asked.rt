// What a script asks, once it passed its checks.
ghost use Rattle.std.specs.Prelude.{◌≡◌, ◌≤◌, length};
ghost use Rattle.script_work.specs.Sound.{Sound, Placed};
ghost use Rattle.base.specs.Props.{StrictAsc-prop};
ghost use Rattle.std.proofs.Props.{props};

// The query's hashes and the coordinates, both ascending, and the place of each hash among the coordinates.
#[derive(Clone, Copy)]
pub struct Query<'a> {
    pub hashes: &'a [u64],
    pub coords: &'a [u64],
    pub places: &'a [u32],
    ghost sound: { Sound hashes.now coords.now } by { Prim.hlevel (props, StrictAsc-prop) },
    ghost room: { length hashes.now ≤ length places.now },
    ghost placed: { Placed hashes.now coords.now places.now (length hashes.now) },
}

// The steps, each with the number of its coordinate and its kind.
#[derive(Clone, Copy)]
pub struct Steps<'a> {
    pub indexes: &'a [u32],
    pub kinds: &'a [u8],
    ghost few: { length indexes.now ≤ 65536 },
    ghost parallel: { length indexes.now ≡ length kinds.now },
}
