// The printed lines, written into an array from its front: words, decimal numbers and hex digits, from the rules' lines. Nothing else of the array is touched.
#![tactic(auto)]

mod writer;

ghost use Rattle.std.specs.Prelude.{◌≡◌};
ghost use Rattle.rules.specs.Lines.{refused_line};
ghost use Rattle.lines.specs.Written.{Written, told_of, lines_by};

use base::{Outcome, Refusal};
use writer::Writer;

// A refusal as it is printed: any number of 8 bits, and the place.
#[derive(Clone, Copy, Debug, PartialEq, Eq)]
pub struct Told {
    pub number: u8,
    pub place: u32,
}

impl From<Refusal> for Told {
    ghost from_gives = { λ refusal told. told ≡ told_of refusal };

    fn from(refusal: Refusal) -> Self {
        Told {
            number: refusal.reason.number(),
            place: refusal.place,
        }
    }
}

// The longest answer has 204 bytes. The count of bytes at the front of `out` is returned; what is past them is untouched.
pub fn say_refused(out: &mut [u8; 256], refusal: Told) -> usize
    ensures { Written 0 (refused_line refusal.number refusal.place) out.old result out.new }
{
    let mut writer = Writer { out, at: 0 };
    writer.refused_line(refusal);
    writer.at
}

// The lines of an answer; the bits are those of the job's estimates, as they stood.
pub fn say(
    out: &mut [u8; 256],
    answer: Result<Outcome, Told>,
    identities: &[u64],
    uppers: &[u64],
) -> usize
    ensures { Written 0 (lines_by identities.now uppers.now answer) out.old result out.new }
{
    let mut writer = Writer { out, at: 0 };
    writer.answer_lines(answer, identities, uppers);
    writer.at
}
