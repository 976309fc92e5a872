// The minimizer sweep (the original's `do_l2_mapping_bitset_exact`). The outward call stands here; below it are the checks, which touch no
// buffer, and the answer for one range, over work lists that are clear before it and behind it.
#![tactic(auto)]

mod checks;

ghost use Rattle.std.specs.Prelude.{◌≡◌, ◌+◌, Ok, eqb, length};
ghost use Rattle.base.specs.Pick.{pick};
ghost use Rattle.base.specs.Answers.{nothing};
ghost use Rattle.rules.specs.Place.{settled, minimizer_answer};
ghost use Rattle.rules.specs.Calls.{MinimizerPromise};
ghost use Rattle.sweep.specs.Beginning.{Exact, Clear};
ghost use Rattle.sweep.specs.Work.{Fits};
ghost use Rattle.sweep.specs.Lent.{SameWork, Zero};
ghost use Rattle.minimizer_work.specs.Given.{sweep_of};
ghost use Rattle.minimizer_work.specs.Work.{Ready};
ghost use Rattle.minimizer_sweep.specs.Given.{lent_of, asked_by, Covers};

use base::{Outcome, Range, Refusal, Settings};
use minimizer_work::Search;
use minimizer_work::items::Items;
use sweep::work::Work;
use sweep::{Found, Lengths, Table};

// The place of what was found; a best score of 0 is none.
#[tactic(auto, using(std::proofs::lemmas::Bool::Decides::nat_tests), unfolding(base::specs::Pick::pick))]
fn settle_found(length: u32, size: usize, table: Table<'_>, minimum: f64, found: Found) -> Outcome
    requires { Fits length size table.identities.now table.uppers.now found.best }
    ensures { Ok result ≡ pick (eqb found.best.shared 0) (nothing found.stats) (settled length size table.entry.identities.now table.entry.uppers.now minimum found.stats found.best) }
{
    if found.best.shared == 0 {
        return Outcome {
            place: None,
            stats: found.stats,
        };
    }
    sweep::settle(length, size, table, minimum, found)
}

// The answer for one range of a sweep that passed its checks.
fn answer(search: Search<'_, '_>, table: Table<'_>, minimum: f64, work: &mut Work<'_>) -> Outcome
    requires ready { Ready search.query.now search.items.hashes.now search.items.positions.now }
    requires table { Covers (length search.query.now) table.identities.now table.uppers.now }
    requires zero { Zero (length search.query.now + length search.items.hashes.now) work.old }
    ensures same { SameWork work.old work.new }
    ensures answer { Ok result ≡ minimizer_answer (asked_by search.entry table.entry minimum) }
    ensures zero { Zero (length search.entry.query.now + length search.entry.items.hashes.now) work.new }
{
    match minimizer_work::work(search, work) {
        None => sweep::early(),
        Some(found) => {
            let size = search.query.len();
            settle_found(search.settings.length, size, table, minimum, found)
        }
    }
}

// The same, whatever the work lists held. Over slices: the `Work` of parts of lists is made where these are the function's own.
fn clear_and_answer(
    search: Search<'_, '_>,
    table: Table<'_>,
    minimum: f64,
    keys: &mut [u64],
    counts: &mut [u32],
    coords: &mut [u32],
    words: &mut [u64],
    summary: &mut [u64],
) -> Outcome
    requires ready { Ready search.query.now search.items.hashes.now search.items.positions.now }
    requires table { Covers (length search.query.now) table.identities.now table.uppers.now }
    requires exact { Exact (length search.query.now + length search.items.hashes.now) keys.old counts.old coords.old words.old summary.old }
    ensures answer { Ok result ≡ minimizer_answer (asked_by search.entry table.entry minimum) }
    ensures clear { Clear (length search.entry.query.now + length search.entry.items.hashes.now) keys.new counts.new coords.new words.new summary.new }
{
    let mut work = Work {
        keys,
        counts,
        coords,
        words,
        summary,
    };
    work.clear();
    answer(search, table, minimum, &mut work)
}

// Where in the range the fragment lies best: `query` holds its hashes in ascending order, `hashes` and `positions` the reference's minimizers by
// position, `identities` and `uppers` the distance table by shared count. A place with its estimate, or none, with what was counted; or the first
// refusal with its place, and every list as it was.
// Lent lists want, for query and items together: keys, counts and coords an entry per hash, words one per 64 hashes, summary one per 64 words.
// What they hold before does not matter; they are left zero that far, and nothing past it is touched.
// The lists are parameters one by one: callers hold them apart, and the calls for C hand them on so.
pub fn minimizer_sweep(
    settings: Settings,
    window: u32,
    range: Range,
    query: &[u64],
    hashes: &[u64],
    positions: &[u32],
    identities: &[f64],
    uppers: &[f64],
    minimum: f64,
    keys: &mut [u64],
    counts: &mut [u32],
    coords: &mut [u32],
    words: &mut [u64],
    summary: &mut [u64],
) -> Result<Outcome, Refusal>
    ensures { MinimizerPromise (sweep_of settings window range query.now hashes.now positions.now identities.now uppers.now minimum) result (lent_of keys.old counts.old coords.old words.old summary.old) (lent_of keys.new counts.new coords.new words.new summary.new) }
{
    let lent = Lengths {
        keys: keys.len(),
        counts: counts.len(),
        coords: coords.len(),
        words: words.len(),
        summary: summary.len(),
    };
    checks::check(
        query,
        hashes,
        positions,
        identities.len(),
        uppers.len(),
        settings.kmer,
        window,
        lent,
    )?;
    let needed = Lengths::needed(query.len() + hashes.len());
    Ok(clear_and_answer(
        Search {
            settings,
            window,
            range,
            query,
            items: Items { hashes, positions },
        },
        Table { identities, uppers },
        minimum,
        &mut keys[..needed.keys],
        &mut counts[..needed.counts],
        &mut coords[..needed.coords],
        &mut words[..needed.words],
        &mut summary[..needed.summary],
    ))
}
