// The reference's minimizers.
ghost use Rattle.std.specs.Prelude.{◌≡◌, ◌^◌, ◌<◌, ℕ, length, get_or};
ghost use Rattle.base.specs.Lists.{Asc};
ghost use Rattle.base.specs.Props.{Asc-prop};

// The hash and the position of each item; positions never descend.
#[derive(Clone, Copy)]
pub struct Items<'a> {
    pub hashes: &'a [u64],
    pub positions: &'a [u32],
    ghost parallel: { length hashes.now ≡ length positions.now },
    ghost asc: { Asc positions.now } by { Asc-prop positions.now },
    ghost near: { (i : ℕ) → get_or positions.now i 0 < 2 ^ 32 },
}
