// A job that was read, lent: the lists are as long as the job's.
ghost use Rattle.std.specs.Prelude.{◌≤◌, length};
ghost use Rattle.rules.specs.Limits.{job_query_limit, job_item_limit};

use crate::fill::Asked;
use job_fields::mode::Mode;

#[derive(Clone, Copy)]
pub struct Job<'a> {
    pub mode: Mode,
    pub asked: Asked,
    pub minimum: f64,
    pub query: &'a [u64],
    pub hashes: &'a [u64],
    pub starts: &'a [u32],
    pub ends: &'a [u32],
    pub identities: &'a [f64],
    pub uppers: &'a [f64],
    pub identity_bits: &'a [u64],
    pub upper_bits: &'a [u64],
    pub ghost few_hashes: { length query.now ≤ job_query_limit },
    pub ghost few_items: { length hashes.now ≤ job_item_limit },
}
