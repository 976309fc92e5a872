// The checks of the minimizer sweep, in the order of their numbers; the first that fails gives its reason and its place.
ghost use Rattle.std.specs.Prelude.{◌≡◌};
ghost use Rattle.rules.specs.Checks.{minimizer_sizes};
ghost use Rattle.minimizer_sweep.specs.Given.{verdict_of};

use base::{Reason, Refusal};
use sweep::Lengths;

// 1, 2 and 3, of the lengths of the lists. The interval sweep has a list more and a setting less: one function, of a list of lengths and a
// list of settings, would be no plainer.
#[tactic(auto, using(std::proofs::lemmas::Bool::Decides::nat_tests), unfolding(base::specs::Pick::pick))]
fn check_sizes(
    query: usize,
    hashes: usize,
    starts: usize,
    identities: usize,
    uppers: usize,
    kmer: u32,
    window: u32,
) -> Result<(), Refusal>
    ensures { result ≡ minimizer_sizes query hashes starts identities uppers kmer window }
{
    if 4096 < query || 61440 < hashes || 61440 < starts {
        return Err(Refusal {
            reason: Reason::TooLarge,
            place: 0,
        });
    }
    if kmer == 0 || window == 0 {
        return Err(Refusal {
            reason: Reason::BadSetting,
            place: 0,
        });
    }
    if hashes != starts || identities != uppers {
        return Err(Refusal {
            reason: Reason::UnequalLengths,
            place: 0,
        });
    }
    Ok(())
}

// All of them; of the table and the work lists the lengths.
pub fn check(
    query: &[u64],
    hashes: &[u64],
    starts: &[u32],
    identities: usize,
    uppers: usize,
    kmer: u32,
    window: u32,
    lent: Lengths,
) -> Result<(), Refusal>
    ensures { result ≡ verdict_of query.now hashes.now starts.now identities uppers kmer window lent.keys lent.counts lent.coords lent.words lent.summary }
{
    let k = query.len();
    let n = hashes.len();
    check_sizes(k, n, starts.len(), identities, uppers, kmer, window)?;
    sweep::check_orders(query, starts)?;
    sweep::check_table(k, identities)?;
    sweep::check_needs(k + n, lent)
}
