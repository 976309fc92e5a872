// What both sweeps share: the checks of their query, table and work lists, the clearing of these lists, the mapper before its first item,
// and the way from a best score to the answer.
#![tactic(auto)]

pub mod work;

ghost use Rattle.std.specs.Prelude.{◌≡◌, ◌+◌, ◌^◌, ◌≤◌, ◌<◌, length, replicate};
ghost use Rattle.base.specs.Answers.{nothing};
ghost use Rattle.rules.specs.Checks.{ceil64, sweep_orders, sweep_table, sweep_needs};
ghost use Rattle.rules.specs.Sweep.{better};
ghost use Rattle.rules.specs.Place.{estimate_at, settled, no_stats};
ghost use Rattle.sweep.specs.Work.{Fits};

use base::{Base, Best, Estimate, Outcome, Place, Reason, Refusal, Slide, Stats};
pub use work::clear;

// 4 and 5: the query ascends strictly, and positions or starts never descend.
#[tactic(auto, using(std::proofs::lemmas::Bool::Decides::nat_tests), unfolding(base::specs::Pick::pick))]
pub fn check_orders(query: &[u64], starts: &[u32]) -> Result<(), Refusal>
    requires { (length query.now < 2 ^ 32) × (length starts.now < 2 ^ 32) }
    ensures { result ≡ sweep_orders query.now starts.now }
{
    let place = base::first_not_above(query);
    if place < query.len() {
        return Err(Refusal {
            reason: Reason::QueryOrder,
            place: place as u32,
        });
    }
    let place = base::first_below(starts);
    if place < starts.len() {
        return Err(Refusal {
            reason: Reason::ItemOrder,
            place: place as u32,
        });
    }
    Ok(())
}

// 7: the distance table has an entry for each count of shared hashes, 0 included.
#[tactic(auto, using(std::proofs::lemmas::Bool::Decides::nat_tests), unfolding(base::specs::Pick::pick))]
pub fn check_table(query: usize, entries: usize) -> Result<(), Refusal>
    requires { query < 2 ^ 32 }
    ensures { result ≡ sweep_table query entries }
{
    if entries < query + 1 {
        return Err(Refusal {
            reason: Reason::ShortTable,
            place: 0,
        });
    }
    Ok(())
}

// How long the work lists are.
#[derive(Clone, Copy)]
pub struct Lengths {
    pub keys: usize,
    pub counts: usize,
    pub coords: usize,
    pub words: usize,
    pub summary: usize,
}

impl Lengths {
    // As long as m hashes of query and items need.
    pub fn needed(m: usize) -> Self
        ensures keys { result.keys ≡ m }
        ensures counts { result.counts ≡ m }
        ensures coords { result.coords ≡ m }
        ensures words { result.words ≡ ceil64 m }
        ensures summary { result.summary ≡ ceil64 (ceil64 m) }
    {
        let words = m.div_ceil(64);
        Lengths {
            keys: m,
            counts: m,
            coords: m,
            words,
            summary: words.div_ceil(64),
        }
    }
}

// 8, of work lists that are lent for m hashes of query and items.
#[tactic(auto, using(std::proofs::lemmas::Bool::Decides::nat_tests), unfolding(base::specs::Pick::pick))]
pub fn check_needs(m: usize, lent: Lengths) -> Result<(), Refusal>
    ensures { result ≡ sweep_needs m lent.keys lent.counts lent.coords lent.words lent.summary }
{
    let needed = Lengths::needed(m);
    if lent.keys < needed.keys
        || lent.counts < needed.counts
        || lent.coords < needed.coords
        || lent.words < needed.words
        || lent.summary < needed.summary
    {
        return Err(Refusal {
            reason: Reason::ShortBuffer,
            place: 0,
        });
    }
    Ok(())
}

// The mapper before its first item, and how many coordinates there are.
#[derive(Clone, Copy)]
pub struct Begun {
    pub coords: u32,
    pub at: Slide,
}

// The first of some consecutive items, and the one past the last.
#[derive(Clone, Copy)]
pub struct Bounds {
    pub from: usize,
    pub to: usize,
}

// The better of the best so far and a score that the positions from `first` to `last` have: a greater score takes both, an equal one takes last.
#[tactic(auto, using(std::proofs::lemmas::Bool::Decides::nat_tests), unfolding(base::specs::Pick::pick, rules::specs::Sweep::better, rules::specs::Sweep::base))]
pub fn better(best: Best, shared: u32, first: Base, last: Base) -> Best
    ensures { result ≡ better best (record { score = shared; first = first.0; last = last.0 }) }
{
    if best.shared < shared {
        return Best {
            shared,
            first,
            last,
        };
    }
    if best.shared == shared {
        return Best { last, ..best };
    }
    best
}

// The distance table by count of shared hashes.
#[derive(Clone, Copy)]
pub struct Table<'a> {
    pub identities: &'a [f64],
    pub uppers: &'a [f64],
}

impl Table<'_> {
    #[tactic(auto, unfolding(rules::specs::Place::estimate_at))]
    pub fn estimate(self, shared: u32) -> Estimate
        requires identity { shared < length self.identities.now }
        requires upper { shared < length self.uppers.now }
        ensures { result ≡ estimate_at self.entry.identities.now self.entry.uppers.now shared }
    {
        let i = shared as usize;
        Estimate {
            identity: self.identities[i],
            upper: self.uppers[i],
        }
    }
}

// The best of what a sweep scored, and what it counted.
#[derive(Clone, Copy)]
pub struct Found {
    pub best: Best,
    pub stats: Stats,
}

// The place of a best score, unless the estimate's upper bound is below the minimum; a NaN never rejects. Sums of positions pass 32
// bits.
pub fn settle(length: u32, size: usize, table: Table<'_>, minimum: f64, found: Found) -> Outcome
    requires { Fits length size table.identities.now table.uppers.now found.best }
    ensures { Ok result ≡ settled length size table.entry.identities.now table.entry.uppers.now minimum found.stats found.best }
{
    let Found { best, stats } = found;
    let shared = best.shared;
    let estimate = table.estimate(shared);
    if estimate.upper < minimum {
        return Outcome { place: None, stats };
    }
    let start = (best.first.0 + best.last.0) / 2;
    let end = start + u64::from(length) - 1;
    let place = Place {
        start: Base(start),
        end: Base(end),
        shared,
        size: size as u32,
        estimate,
    };
    Outcome {
        place: Some(place),
        stats,
    }
}

// None, settled before coordinates are built.
pub fn early() -> Outcome
    ensures { Ok result ≡ nothing no_stats }
{
    Outcome {
        place: None,
        stats: Stats {
            windows: 0,
            coords: 0,
            items: 0,
        },
    }
}
