// The second pass, over a job that was judged whole: the units of a tag's fields, one after the other, in place, column by column into the lent lists.
ghost use Rattle.std.specs.Prelude.{◌≡◌, length};
ghost use Rattle.std.specs.Float.{binary64};
ghost use Rattle.std.specs.Float.Ieee.{of_bits};
ghost use Rattle.rules.specs.Limits.{job_item_limit, job_estimate_limit, settings_tag, minimum_tag};
ghost use Rattle.rules.specs.Job.{joined_data, mode_of, number};
ghost use Rattle.job_fields.specs.Mode.{mode_at};
ghost use Rattle.job.specs.Units.{fields_in, Accepted};
ghost use Rattle.job.specs.Read.{asked_of, decoded, Items, Estimates};

use crate::entry::Entry;
use crate::units::Units;
use base::{Range, Settings};
use job_fields::mode::Mode;
use job_fields::table::{ESTIMATES_TAG, ITEMS_TAG, MINIMUM_TAG, SETTINGS_TAG};

// What 03 asks: the window is the minimizer sweep's alone.
#[derive(Clone, Copy)]
pub struct Asked {
    pub settings: Settings,
    pub window: u32,
    pub range: Range,
}

// What a job tells beside the lists, and how much of each list is the job's.
#[derive(Clone, Copy)]
pub struct Decoded {
    pub mode: Mode,
    pub asked: Asked,
    pub minimum: f64,
    pub query: usize,
    pub items: usize,
    pub estimates: usize,
}

// The five numbers of 03.
pub(crate) fn asked_of(job: &[u8]) -> Asked
    requires { Accepted job.now }
    ensures { result ≡ asked_of (joined_data settings_tag (fields_in job.now)) }
{
    let mut units = Units::of(job, SETTINGS_TAG, 20);
    let unit = units.next_unit().unwrap_or(&[0; 20]);
    Asked {
        settings: Settings {
            kmer: u32::read(unit, 0),
            length: u32::read(unit, 8),
        },
        window: u32::read(unit, 4),
        range: Range {
            start: u32::read(unit, 12),
            end: u32::read(unit, 16),
        },
    }
}

// The number of 04; 0.0 where there is none.
pub(crate) fn minimum_of(job: &[u8]) -> f64
    requires { Accepted job.now }
    ensures { result ≡ of_bits binary64 (number (joined_data minimum_tag (fields_in job.now))) }
{
    let mut units = Units::of(job, MINIMUM_TAG, 8);
    let unit = units.next_unit().unwrap_or(&[0; 8]);
    f64::read(unit, 0)
}

// 06: hash and position, or hash, start and end; how many. It takes the lists of a `Room` that it fills, and no other.
pub(crate) fn fill_items(
    job: &[u8],
    mode: Mode,
    hashes: &mut [u64],
    starts: &mut [u32],
    ends: &mut [u32],
) -> usize
    requires accepted { Accepted job.now }
    requires mode { mode ≡ mode_at (mode_of (fields_in job.now)) }
    requires hashes { length hashes.old ≡ job_item_limit }
    requires starts { length starts.old ≡ job_item_limit }
    requires ends { length ends.old ≡ job_item_limit }
    ensures { Items (decoded job.now) result hashes.old starts.old ends.old hashes.new starts.new ends.new }
{
    match mode {
        Mode::Minimizer => {
            let points = Units::of(job, ITEMS_TAG, 12);
            points.fill(0, hashes);
            points.fill(8, starts)
        }
        Mode::Interval => {
            let spans = Units::of(job, ITEMS_TAG, 16);
            spans.fill(0, hashes);
            spans.fill(8, starts);
            spans.fill(12, ends)
        }
    }
}

// 07: identity and upper bound, each as a number and as it stood; how many. Its lists likewise.
pub(crate) fn fill_estimates(
    job: &[u8],
    identities: &mut [f64],
    uppers: &mut [f64],
    identity_bits: &mut [u64],
    upper_bits: &mut [u64],
) -> usize
    requires accepted { Accepted job.now }
    requires identities { length identities.old ≡ job_estimate_limit }
    requires uppers { length uppers.old ≡ job_estimate_limit }
    requires identity_bits { length identity_bits.old ≡ job_estimate_limit }
    requires upper_bits { length upper_bits.old ≡ job_estimate_limit }
    ensures { Estimates (decoded job.now) result identities.old uppers.old identity_bits.old upper_bits.old identities.new uppers.new identity_bits.new upper_bits.new }
{
    let pairs = Units::of(job, ESTIMATES_TAG, 16);
    pairs.fill(0, identities);
    pairs.fill(8, uppers);
    pairs.fill(0, identity_bits);
    pairs.fill(8, upper_bits)
}
