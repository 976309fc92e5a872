// The script.
ghost use Rattle.std.specs.Prelude.{◌≡◌};
ghost use Rattle.rules.specs.Told.{told_script};
ghost use Rattle.script_work.specs.Work.{script_of};
ghost use Rattle.script.specs.Given.{lent_of};
ghost use Rattle.exports.specs.Script.{out_of, Exported};

use base::{Refusal, Slide};

// Number 0: done, at place 0, with the pair after the last step. Any other number: refused at that place, and the pair is 0, 0.
#[repr(C)]
#[derive(Clone, Copy, Default)]
pub struct ScriptOut {
    pub number: u32,
    pub place: u32,
    pub pivot: u32,
    pub shared: u32,
}

impl From<Result<Slide, Refusal>> for ScriptOut {
    ghost from_gives = { λ answer out. out ≡ out_of (told_script answer) };

    #[tactic(auto, unfolding(crate::specs::Script::out_of, rules::specs::Told::told_script, rules::specs::Told::told_refused, rules::specs::Told::told_done))]
    fn from(answer: Result<Slide, Refusal>) -> Self {
        match answer {
            Err(refusal) => ScriptOut {
                number: u32::from(refusal.reason.number()),
                place: refusal.place,
                ..ScriptOut::default()
            },
            Ok(at) => ScriptOut {
                number: 0,
                place: 0,
                pivot: at.pivot.0,
                shared: at.shared,
            },
        }
    }
}

#[tactic(auto, using(crate::proofs::Script::exported))]
#[unsafe(no_mangle)]
pub extern "C" fn kelonbaro_script(
    query: &[u64],
    coords: &[u64],
    indexes: &[u32],
    kinds: &[u8],
    counts: &mut [u32],
    words: &mut [u64],
    summary: &mut [u64],
    pivots: &mut [u32],
    shareds: &mut [u32],
) -> ScriptOut
    ensures { Exported (script_of query.now coords.now indexes.now kinds.now) result (lent_of counts.old words.old summary.old pivots.old shareds.old) (lent_of counts.new words.new summary.new pivots.new shareds.new) }
{
    ScriptOut::from(script::script(
        query, coords, indexes, kinds, counts, words, summary, pivots, shareds,
    ))
}
