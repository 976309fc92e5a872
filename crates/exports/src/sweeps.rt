// The sweeps.
ghost use Rattle.std.specs.Prelude.{◌≡◌};
ghost use Rattle.rules.specs.Told.{told_sweep};
ghost use Rattle.minimizer_work.specs.Given.{sweep_of};
ghost use Rattle.minimizer_sweep.specs.Given.{lent_of};
ghost use Rattle.interval_sweep.specs.Given as intervals;
ghost use Rattle.exports.specs.Sweep.{sweep_out_of, MinimizerExported, IntervalExported};

use base::{Outcome, Range, Refusal, Settings};

// Number 0: done, at place 0, with the statistics; found is 1 where there is a place, else 0 with all that a place has. Any other number:
// refused at that place, and all else is 0.
#[repr(C)]
#[derive(Clone, Copy, Default)]
pub struct SweepOut {
    pub number: u32,
    pub place: u32,
    pub found: u32,
    pub start: u64,
    pub end: u64,
    pub shared: u32,
    pub size: u32,
    pub identity: f64,
    pub upper: f64,
    pub windows: u64,
    pub coords: u32,
    pub items: u32,
}

impl From<Result<Outcome, Refusal>> for SweepOut {
    ghost from_gives = { λ answer out. out ≡ sweep_out_of (told_sweep answer) };

    #[tactic(auto, unfolding(crate::specs::Sweep::sweep_out_of, crate::specs::Sweep::sweep_fields, rules::specs::Told::told_sweep, rules::specs::Told::told_refused, rules::specs::Told::told_done))]
    fn from(answer: Result<Outcome, Refusal>) -> Self {
        match answer {
            Err(refusal) => SweepOut {
                number: u32::from(refusal.reason.number()),
                place: refusal.place,
                ..SweepOut::default()
            },
            Ok(Outcome { place: None, stats }) => SweepOut {
                windows: stats.windows,
                coords: stats.coords,
                items: stats.items,
                ..SweepOut::default()
            },
            Ok(
                Outcome {
                    place: Some(at),
                    stats,
                },
            ) => SweepOut {
                number: 0,
                place: 0,
                found: 1,
                start: at.start.0,
                end: at.end.0,
                shared: at.shared,
                size: at.size,
                identity: at.estimate.identity,
                upper: at.estimate.upper,
                windows: stats.windows,
                coords: stats.coords,
                items: stats.items,
            },
        }
    }
}

#[tactic(auto, using(crate::proofs::Sweep::minimizer_exported))]
#[unsafe(no_mangle)]
pub extern "C" fn kelonbaro_minimizer_sweep(
    kmer: u32,
    length: u32,
    window: u32,
    start: u32,
    end: u32,
    query: &[u64],
    hashes: &[u64],
    positions: &[u32],
    identities: &[f64],
    uppers: &[f64],
    minimum: f64,
    keys: &mut [u64],
    counts: &mut [u32],
    coords: &mut [u32],
    words: &mut [u64],
    summary: &mut [u64],
) -> SweepOut
    ensures { MinimizerExported (sweep_of (record { kmer = kmer; length = length }) window (record { start = start; end = end }) query.now hashes.now positions.now identities.now uppers.now minimum) result (lent_of keys.old counts.old coords.old words.old summary.old) (lent_of keys.new counts.new coords.new words.new summary.new) }
{
    SweepOut::from(minimizer_sweep::minimizer_sweep(
        Settings { kmer, length },
        window,
        Range { start, end },
        query,
        hashes,
        positions,
        identities,
        uppers,
        minimum,
        keys,
        counts,
        coords,
        words,
        summary,
    ))
}

#[tactic(auto, using(crate::proofs::Sweep::interval_exported))]
#[unsafe(no_mangle)]
pub extern "C" fn kelonbaro_interval_sweep(
    kmer: u32,
    length: u32,
    start: u32,
    end: u32,
    query: &[u64],
    hashes: &[u64],
    starts: &[u32],
    ends: &[u32],
    identities: &[f64],
    uppers: &[f64],
    minimum: f64,
    keys: &mut [u64],
    counts: &mut [u32],
    coords: &mut [u32],
    words: &mut [u64],
    summary: &mut [u64],
    events: &mut [u64],
) -> SweepOut
    ensures { IntervalExported (intervals.sweep_of query.now hashes.now starts.now ends.now (record { kmer = kmer; length = length }) (record { start = start; end = end }) identities.now uppers.now minimum) result (intervals.lent_of keys.old counts.old coords.old words.old summary.old) (intervals.lent_of keys.new counts.new coords.new words.new summary.new) events.old events.new }
{
    SweepOut::from(interval_sweep::interval_sweep(
        Settings { kmer, length },
        Range { start, end },
        query,
        hashes,
        starts,
        ends,
        identities,
        uppers,
        minimum,
        keys,
        counts,
        coords,
        words,
        summary,
        events,
    ))
}
