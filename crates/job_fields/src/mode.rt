// The two kinds of a job: the items of its 06 are minimizers at positions, or intervals. 02 tells it by a byte, 0 or 1.
ghost use Rattle.std.specs.Prelude.{◌≡◌};
ghost use Rattle.job_fields.specs.Mode.{mode_from};

use base::Reason;

#[derive(Clone, Copy, Debug, PartialEq, Eq)]
pub enum Mode {
    Minimizer,
    Interval,
}

impl TryFrom<u8> for Mode {
    type Error = Reason;

    ghost try_from_gives = { λ byte r. r ≡ mode_from byte };

    #[tactic(auto, unfolding(crate::specs::Mode::mode_from, crate::specs::Mode::mode_at, base::specs::Pick::pick))]
    fn try_from(byte: u8) -> Result<Mode, Reason> {
        match byte {
            0 => Ok(Mode::Minimizer),
            1 => Ok(Mode::Interval),
            _ => Err(Reason::FieldMalformed),
        }
    }
}
