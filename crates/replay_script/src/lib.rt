// One stored script: the call is made as the record says, and its answer and every element of the lent lists are held to the record.
#![tactic(auto)]

use base::{Refusal, Slide};
use records::lists::{POISON, POISON_WORD, holds, zeroed};
use records::record::MOST;
use records::{Fault, Record};

// Where the words of the answer stand, where those of a script that is done, and where the lists begin: those of the call, and where it is done
// the pivots and the shared counts.
const ANSWER: usize = 10;

const LAST: usize = ANSWER + 2;

const LISTS: usize = 14;

// Whether the record says this of the answer.
fn answered(record: Record<'_>, answer: Result<Slide, Refusal>) -> bool {
    match answer {
        Ok(last) => {
            record.says(ANSWER, &[0])
                && record.says(LAST, &[u64::from(last.pivot.0), u64::from(last.shared)])
        }
        Err(refusal) => record.refuses(ANSWER, refusal),
    }
}

// Replays a record.
// Not inlined: else the arrays of every replay stand in one frame, side by side.
#[inline(never)]
pub fn replay(record: Record<'_>) -> Result<(), Fault> {
    let mut indexes = [0u32; MOST];
    let mut kinds = [0u8; MOST];
    let mut counts = [POISON; MOST];
    let mut bits = [POISON_WORD; MOST];
    let mut summary = [POISON_WORD; MOST];
    let mut pivots = [POISON; MOST];
    let mut shareds = [POISON; MOST];
    let mut lists = record.lists(LISTS)?;
    let query = lists.list(1)?;
    let coords = lists.list(2)?;
    let answer = script::script(
        query,
        coords,
        lists.read(3, &mut indexes)?,
        lists.read(4, &mut kinds)?,
        &mut counts[..record.size(5)?],
        &mut bits[..record.size(6)?],
        &mut summary[..record.size(7)?],
        &mut pivots[..record.size(8)?],
        &mut shareds[..record.size(9)?],
    );
    // A refusal changes no list.
    let (cleared, pivots_told, shareds_told) = if answer.is_ok() {
        (coords.len(), lists.list(3)?, lists.list(3)?)
    } else {
        (0, &[][..], &[][..])
    };
    let blocks = cleared.div_ceil(64);
    Fault::unless(
        answered(record, answer)
            && zeroed(&counts, cleared)
            && zeroed(&bits, blocks)
            && zeroed(&summary, blocks.div_ceil(64))
            && holds(&pivots, pivots_told)
            && holds(&shareds, shareds_told),
    )
}
