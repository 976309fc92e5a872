// The answer of a job that was read: the sweep of its mode with its refusals. The work lists are local arrays of the program's limits, so that none is ever too short.
#![tactic(auto)]

ghost use Rattle.std.specs.Prelude.{◌≡◌};
ghost use Rattle.job_answer.specs.Mapped.{points_of, spans_of, minimizer_done, interval_done, answer_in};

use base::{Outcome, Refusal};
use job::fronts::Job;
use job_fields::mode::Mode;

// The minimizer sweep over a job's lists. Its arrays stand in the function, as those of the interval sweep, which has one more: so many bytes of
// the stack are used by the sweep that runs alone.
fn sweep_minimizers(job: &Job<'_>) -> Result<Outcome, Refusal>
    ensures { result ≡ minimizer_done (points_of job.now) }
{
    let mut keys = [0u64; 2560];
    let mut counts = [0u32; 2560];
    let mut coords = [0u32; 2560];
    let mut words = [0u64; 40];
    let mut summary = [0u64; 1];
    minimizer_sweep::minimizer_sweep(
        job.asked.settings,
        job.asked.window,
        job.asked.range,
        job.query,
        job.hashes,
        job.starts,
        job.identities,
        job.uppers,
        job.minimum,
        &mut keys,
        &mut counts,
        &mut coords,
        &mut words,
        &mut summary,
    )
}

// The interval sweep.
fn sweep_intervals(job: &Job<'_>) -> Result<Outcome, Refusal>
    ensures { result ≡ interval_done (spans_of job.now) }
{
    let mut keys = [0u64; 2560];
    let mut counts = [0u32; 2560];
    let mut coords = [0u32; 2560];
    let mut words = [0u64; 40];
    let mut summary = [0u64; 1];
    let mut events = [0u64; 4096];
    interval_sweep::interval_sweep(
        job.asked.settings,
        job.asked.range,
        job.query,
        job.hashes,
        job.starts,
        job.ends,
        job.identities,
        job.uppers,
        job.minimum,
        &mut keys,
        &mut counts,
        &mut coords,
        &mut words,
        &mut summary,
        &mut events,
    )
}

#[tactic(auto, unfolding(crate::specs::Mapped::answer_in))]
pub fn answer_of(job: &Job<'_>) -> Result<Outcome, Refusal>
    ensures { result ≡ answer_in job.now }
{
    match job.mode {
        Mode::Minimizer => sweep_minimizers(job),
        Mode::Interval => sweep_intervals(job),
    }
}
