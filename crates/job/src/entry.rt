// The numbers of a job, as they stand in its units: low byte first.
ghost use Rattle.std.specs.Prelude.{◌≡◌, ◌+◌, ◌≤◌, ℕ, List, length};
ghost use Rattle.rules.specs.Job.{number_at};
ghost use Rattle.job.specs.Units.{float_at};

// A number of some bytes. `at` is the number at an offset in a unit.
pub trait Entry: Copy {
    ghost size: { ℕ };

    ghost at: { ℕ → List ℕ → Self };

    fn read(unit: &[u8], offset: usize) -> Self
        requires { offset + size ≤ length unit.now }
        ensures { result ≡ at offset unit.now };
}

impl Entry for u32 {
    ghost size = { 4 };

    ghost at = { λ offset unit. number_at offset 4 unit };

    fn read(unit: &[u8], offset: usize) -> u32 {
        let mut bytes = [0; 4];
        bytes.copy_from_slice(&unit[offset..offset + 4]);
        u32::from_le_bytes(bytes)
    }
}

impl Entry for u64 {
    ghost size = { 8 };

    ghost at = { λ offset unit. number_at offset 8 unit };

    fn read(unit: &[u8], offset: usize) -> u64 {
        let mut bytes = [0; 8];
        bytes.copy_from_slice(&unit[offset..offset + 8]);
        u64::from_le_bytes(bytes)
    }
}

// Of the bits of a NaN the one NaN is made.
impl Entry for f64 {
    ghost size = { 8 };

    ghost at = { λ offset unit. float_at offset unit };

    #[tactic(auto, unfolding(crate::specs::Units::float_at))]
    fn read(unit: &[u8], offset: usize) -> f64 {
        float_bits::float_of(u64::read(unit, offset))
    }
}
