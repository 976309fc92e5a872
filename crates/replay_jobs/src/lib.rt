// One stored job: its bytes are run, and every byte that is printed, and every byte of the output past them, is held to the record.
#![tactic(auto)]

use records::{Fault, Record};

// Where the job's bytes begin; the lines' bytes follow them.
const BYTES: usize = 4;

// What the output holds before the call.
const POISON: u8 = 0xa5;

// Replays a record.
// Not inlined: else the arrays of every replay stand in one frame, side by side.
#[inline(never)]
pub fn replay(record: Record<'_>) -> Result<(), Fault> {
    let mut room = [0u8; 65536];
    let mut told = [POISON; 256];
    let mut out = [POISON; 256];
    let mut parts = record.lists(BYTES)?;
    let job = parts.bytes(1, &mut room)?;
    let lines = parts.bytes(2, &mut told)?.len();
    if !parts.rest().is_empty() {
        return Err(Fault::Malformed);
    }
    let failed = record.word(3)? == 1;
    let count = run::run(job, failed, &mut out);
    Fault::unless(count == lines && out == told)
}
