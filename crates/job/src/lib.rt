// Reads a job: fields of tag, length and data, in place. The first pass, over `job_fields`' table, judges the whole file and writes nothing; the second fills the lists that
// it is lent. So a refusal leaves every list as it was.
#![tactic(auto)]

mod entry;
pub mod fill;
pub mod fronts;
mod room;
mod units;

ghost use Rattle.job.specs.Read.{lists_of, ReadPromise};

use base::Refusal;
use fill::Decoded;
use job_fields::judge::judge;
use room::Room;

// The lists hold the most that a program takes: 512 query hashes, 2,048 items (hash; position or start; end in interval mode alone), 513 estimates (identity and upper
// bound, as numbers, where every pattern of a NaN is the one NaN, and the bits as they stood). Entries past the job's are untouched.
// The lists are parameters one by one: callers hold them apart, and the calls for C hand them on so.
pub fn read(
    job: &[u8],
    query: &mut [u64; 512],
    hashes: &mut [u64; 2048],
    starts: &mut [u32; 2048],
    ends: &mut [u32; 2048],
    identities: &mut [f64; 513],
    uppers: &mut [f64; 513],
    identity_bits: &mut [u64; 513],
    upper_bits: &mut [u64; 513],
) -> Result<Decoded, Refusal>
    ensures { ReadPromise job.now result (lists_of query.old hashes.old starts.old ends.old identities.old uppers.old identity_bits.old upper_bits.old) (lists_of query.new hashes.new starts.new ends.new identities.new uppers.new identity_bits.new upper_bits.new) }
{
    let mode = judge(job)?;
    let mut room = Room {
        query,
        hashes,
        starts,
        ends,
        identities,
        uppers,
        identity_bits,
        upper_bits,
    };
    Ok(room.fill(job, mode))
}
