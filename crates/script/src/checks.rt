// The checks of a script, in the order of their numbers; the first that fails gives its reason and its place.
ghost use Rattle.std.specs.Prelude.{◌≡◌, ◌^◌, ◌≤◌, ◌<◌, ◌||◌, ltb, leb, length, OnOk};
ghost use Rattle.std.specs.List.{position, zip};
ghost use Rattle.base.specs.Lists.{StrictAsc};
ghost use Rattle.rules.specs.Checks.{ceil64, script_sizes, script_orders, first_missing, first_bad_step, script_members, script_needs};
ghost use Rattle.rules.specs.Refusals.{script_verdict};
ghost use Rattle.script_work.specs.Sound.{Placed};
ghost use Rattle.script.specs.Given.{asked, lengths_of, found, Sized};

use crate::walk::Ascending;
use base::{Reason, Refusal};

// A script as it is handed in.
#[derive(Clone, Copy)]
pub struct Input<'a> {
    pub query: &'a [u64],
    pub coords: &'a [u64],
    pub indexes: &'a [u32],
    pub kinds: &'a [u8],
}

// How long the lists are that it is lent: other lists than those of a sweep.
#[derive(Clone, Copy)]
pub struct Lengths {
    pub counts: usize,
    pub words: usize,
    pub summary: usize,
    pub pivots: usize,
    pub shareds: usize,
}

impl Lengths {
    // As long as so many coordinates and steps need.
    pub fn needed(coords: usize, steps: usize) -> Self
        ensures counts { result.counts ≡ coords }
        ensures words { result.words ≡ ceil64 coords }
        ensures summary { result.summary ≡ ceil64 (ceil64 coords) }
        ensures pivots { result.pivots ≡ steps }
        ensures shareds { result.shareds ≡ steps }
    {
        let words = coords.div_ceil(64);
        Lengths {
            counts: coords,
            words,
            summary: words.div_ceil(64),
            pivots: steps,
            shareds: steps,
        }
    }
}

// 1 and 3, of the lengths of the lists.
fn check_sizes(query: usize, coords: usize, indexes: usize, kinds: usize) -> Result<(), Refusal>
    ensures { result ≡ script_sizes query coords indexes kinds }
{
    if 4096 < query || 65536 < coords || coords == 0 || 65536 < indexes || 65536 < kinds {
        return Err(Refusal {
            reason: Reason::TooLarge,
            place: 0,
        });
    }
    if indexes != kinds {
        return Err(Refusal {
            reason: Reason::UnequalLengths,
            place: 0,
        });
    }
    Ok(())
}

// 4 and 5.
fn check_orders(query: &[u64], coords: &[u64]) -> Result<(), Refusal>
    requires query { length query.now < 2 ^ 32 }
    requires coords { length coords.now < 2 ^ 32 }
    ensures { result ≡ script_orders query.now coords.now }
{
    if query.is_empty() {
        return Err(Refusal {
            reason: Reason::QueryOrder,
            place: 0,
        });
    }
    let i = base::first_not_above(query);
    if i < query.len() {
        return Err(Refusal {
            reason: Reason::QueryOrder,
            place: i as u32,
        });
    }
    let j = base::first_not_above(coords);
    if j < coords.len() {
        return Err(Refusal {
            reason: Reason::ItemOrder,
            place: j as u32,
        });
    }
    Ok(())
}

// The first query hash that is no coordinate: one walk over both lists. The places of the hashes before it are left in `places`, so that
// the marking need not walk again.
fn first_missing(query: Ascending<'_>, coords: Ascending<'_>, places: &mut [u32]) -> Option<usize>
    requires few { length coords.hashes.now ≤ 65536 }
    requires room { length query.hashes.now ≤ length places.old }
    ensures missing { result ≡ found (first_missing coords.entry.hashes.now query.entry.hashes.now) (length query.entry.hashes.now) }
    ensures placed { Placed query.entry.hashes.now coords.entry.hashes.now places.new (first_missing coords.entry.hashes.now query.entry.hashes.now) }
{
    let mut at = 0;
    for (i, hash) in query.hashes.iter().enumerate() {
        at = coords.reach(*hash, at);
        if coords.hashes.len() <= at || coords.hashes[at] != *hash {
            return Some(i);
        }
        places[i] = at as u32;
    }
    None
}

// The first step that is past the n coordinates or of no kind, step by step.
fn find_bad_step(n: usize, indexes: &[u32], kinds: &[u8]) -> Option<usize>
    requires { length indexes.now ≡ length kinds.now }
    ensures { result ≡ position (λ p. leb n p.0 || ltb 1 p.1) (zip indexes.now kinds.now) }
{
    indexes
        .iter()
        .zip(kinds)
        .position(|(index, kind)| n <= *index as usize || 1 < *kind)
}

// The same, with a quick look first: the largest index and the largest kind tell whether any step is bad, by loops with no exit, which the
// compiler makes into vector code.
fn first_bad_step(n: usize, indexes: &[u32], kinds: &[u8]) -> Option<usize>
    requires { length indexes.now ≡ length kinds.now }
    ensures { result ≡ found (first_bad_step n indexes.now kinds.now) (length indexes.now) }
{
    let most = base::largest(indexes);
    let kind = kinds.iter().copied().max().unwrap_or(0);
    if (most as usize) < n && kind <= 1 {
        return None;
    }
    find_bad_step(n, indexes, kinds)
}

// 6.
fn check_members(input: Input<'_>, places: &mut [u32]) -> Result<(), Refusal>
    requires sized { Sized input.query.now input.coords.now input.indexes.now input.kinds.now }
    requires query_asc { StrictAsc input.query.now }
    requires coords_asc { StrictAsc input.coords.now }
    requires room { length input.query.now ≤ length places.old }
    ensures members { result ≡ script_members input.entry.query.now input.entry.coords.now input.entry.indexes.now input.entry.kinds.now }
    ensures placed { Placed input.entry.query.now input.entry.coords.now places.new (first_missing input.entry.coords.now input.entry.query.now) }
{
    let query = Ascending {
        hashes: input.query,
    };
    let coords = Ascending {
        hashes: input.coords,
    };
    if let Some(missing) = first_missing(query, coords, places) {
        return Err(Refusal {
            reason: Reason::NotMember,
            place: missing as u32,
        });
    }
    if let Some(bad) = first_bad_step(input.coords.len(), input.indexes, input.kinds) {
        return Err(Refusal {
            reason: Reason::NotMember,
            place: bad as u32,
        });
    }
    Ok(())
}

// 8, of lists that are lent for m coordinates and so many steps.
fn check_needs(m: usize, steps: usize, lent: Lengths) -> Result<(), Refusal>
    ensures { result ≡ script_needs m steps lent.counts lent.words lent.summary lent.pivots lent.shareds }
{
    let needed = Lengths::needed(m, steps);
    if lent.counts < needed.counts
        || lent.words < needed.words
        || lent.summary < needed.summary
        || lent.pivots < needed.pivots
        || lent.shareds < needed.shareds
    {
        return Err(Refusal {
            reason: Reason::ShortBuffer,
            place: 0,
        });
    }
    Ok(())
}

// All of them. Where all are fine, the places of the query are left in `places`.
pub fn check(input: Input<'_>, lent: Lengths, places: &mut [u32]) -> Result<(), Refusal>
    requires { 4096 ≤ length places.old }
    ensures verdict { result ≡ script_verdict (asked input.entry) (lengths_of lent) }
    ensures placed { OnOk result (Placed input.entry.query.now input.entry.coords.now places.new (length input.entry.query.now)) }
{
    let m = input.coords.len();
    let steps = input.indexes.len();
    check_sizes(input.query.len(), m, steps, input.kinds.len())?;
    check_orders(input.query, input.coords)?;
    check_members(input, places)?;
    check_needs(m, steps, lent)
}
