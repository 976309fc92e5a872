// The lists that a job is read into, each as long as the most that a program takes.
ghost use Rattle.std.specs.Prelude.{◌≡◌, length};
ghost use Rattle.rules.specs.Limits.{job_query_limit, job_item_limit, job_estimate_limit};

use crate::fill::{Decoded, asked_of, fill_estimates, fill_items, minimum_of};
use crate::units::Units;
use job_fields::mode::Mode;
use job_fields::table::QUERY_TAG;

#[derive(Drop)]
pub struct Room<'a> {
    pub query: &'a mut [u64],
    pub hashes: &'a mut [u64],
    pub starts: &'a mut [u32],
    pub ends: &'a mut [u32],
    pub identities: &'a mut [f64],
    pub uppers: &'a mut [f64],
    pub identity_bits: &'a mut [u64],
    pub upper_bits: &'a mut [u64],
    ghost query_size: { length query.now ≡ job_query_limit },
    ghost hashes_size: { length hashes.now ≡ job_item_limit },
    ghost starts_size: { length starts.now ≡ job_item_limit },
    ghost ends_size: { length ends.now ≡ job_item_limit },
    ghost identities_size: { length identities.now ≡ job_estimate_limit },
    ghost uppers_size: { length uppers.now ≡ job_estimate_limit },
    ghost identity_bits_size: { length identity_bits.now ≡ job_estimate_limit },
    ghost upper_bits_size: { length upper_bits.now ≡ job_estimate_limit },
}

impl Room<'_> {
    ghost use Rattle.rules.specs.Job.{mode_of};
    ghost use Rattle.job_fields.specs.Mode.{mode_at};
    ghost use Rattle.job.specs.Units.{fields_in, Accepted};
    ghost use Rattle.job.specs.Read.{decoded, decoded_of, filled};
    ghost use Rattle.job.specs.Room.{lists_in, SameLists};

    // Everything that a whole file tells.
    pub fn fill(&mut self, job: &[u8], mode: Mode) -> Decoded
        requires accepted { Accepted job.now }
        requires mode { mode ≡ mode_at (mode_of (fields_in job.now)) }
        ensures decoded { result ≡ decoded_of (decoded job.now) }
        ensures lists { lists_in self.new ≡ filled (decoded job.now) (lists_in self.old) }
        ensures same { SameLists self.old self.new }
    {
        let asked = asked_of(job);
        let minimum = minimum_of(job);
        let query = Units::of(job, QUERY_TAG, 8).fill(0, self.query);
        let items = fill_items(job, mode, self.hashes, self.starts, self.ends);
        let estimates = fill_estimates(
            job,
            self.identities,
            self.uppers,
            self.identity_bits,
            self.upper_bits,
        );
        Decoded {
            mode,
            asked,
            minimum,
            query,
            items,
            estimates,
        }
    }
}
