// The checks of a finder, in the order of their numbers; the first that fails gives its reason, which names no element.
ghost use Rattle.std.specs.Prelude.{◌≡◌, ◌≤◌, not, length, ltb, eqb};
ghost use Rattle.std.specs.List.{list_any};
ghost use Rattle.rules.specs.Lists.{sum};
ghost use Rattle.rules.specs.Limits.{group_limit};
ghost use Rattle.candidate_window.specs.Given.{verdict_of};

use base::{Reason, Refusal};

// The limits of a call: hits, groups, and the minimum of hits.
const HITS: usize = 61440;

const GROUPS: usize = 4096;

const MINIMUM: u32 = 2147483647;

// The sum of the group lengths, which passes 32 bits where the groups are not those of the hits.
fn total(groups: &[u32]) -> u64
    requires { length groups.now ≤ group_limit }
    ensures { result ≡ sum groups.now }
{
    groups.iter().map(|group| u64::from(*group)).sum()
}

fn any_above(lengths: &[usize], limit: usize) -> bool
    ensures { result ≡ list_any (λ n. ltb limit n) lengths.now }
{
    lengths.iter().any(|n| limit < *n)
}

fn any_below(lengths: &[usize], hits: usize) -> bool
    ensures { result ≡ list_any (λ n. ltb n hits) lengths.now }
{
    lengths.iter().any(|n| *n < hits)
}

fn any_other(lengths: &[usize], hits: usize) -> bool
    ensures { result ≡ list_any (λ n. not (eqb hits n)) lengths.now }
{
    lengths.iter().any(|n| hits != *n)
}

// Of the parallel lists of hits and of the lent lists the lengths: each parallel list has as many as there are hits, each lent one no fewer.
#[tactic(auto, using(base::proofs::Checks::checks), unfolding(crate::specs::Given::verdict_of))]
pub fn check(
    groups: &[u32],
    hits: usize,
    parallel: &[usize],
    minimum: u32,
    lent: &[usize],
) -> Result<(), Refusal>
    ensures { result ≡ verdict_of groups.now hits parallel.now minimum lent.now }
{
    let reason = if any_above(parallel, HITS) || GROUPS < groups.len() {
        Reason::TooLarge
    } else if minimum == 0 || MINIMUM < minimum {
        Reason::BadSetting
    } else if any_other(parallel, hits) || total(groups) != hits as u64 {
        Reason::UnequalLengths
    } else if any_below(lent, hits) {
        Reason::ShortBuffer
    } else {
        return Ok(());
    };
    Err(Refusal { reason, place: 0 })
}
