// The coordinates of a call (the original's `build_indexed_minimizers`): all query and local reference hashes in ascending order, each
// once. What a sweep wants of them is each hash's number among them, and which are in the query; the coordinates themselves are not kept.
#![tactic(auto)]

mod joined;
mod pack;
mod search;

ghost use Rattle.std.specs.Prelude.{◌≡◌, length, ◌<◌};
ghost use Rattle.base.specs.Lists.{All};
ghost use Rattle.coordinates.specs.Coordinates.{Lent, Numbered, Asked, Answered, marked};

use joined::Hashes;

// Puts a 1 at each of these places.
fn mark(places: &[u32], counts: &mut [u32])
    requires { All (λ i. i < length counts.old) places.now }
    ensures { counts.new ≡ marked counts.old places.now }
{
    for place in places {
        counts[*place as usize] = 1;
    }
}

// From packed keys; where they do not do, by search.
fn number(hashes: Hashes<'_>, keys: &mut [u64], coords: &mut [u32]) -> usize
    requires { Lent hashes.query.now hashes.items.now keys.old coords.old }
    ensures { Numbered hashes.entry.query.now hashes.entry.items.now coords.new result }
{
    match pack::number(hashes, keys, coords) {
        Some(n) => n,
        None => search::number(hashes, keys, coords),
    }
}

// Numbers the query's hashes in the first of `coords` and the items' after them, marks the query in the count words, and returns how many
// coordinates there are. Nothing is said of what `keys` is left with: the caller clears it.
pub fn coordinates(
    query: &[u64],
    hashes: &[u64],
    keys: &mut [u64],
    counts: &mut [u32],
    coords: &mut [u32],
) -> usize
    requires { Asked query.now hashes.now keys.old counts.old coords.old }
    ensures { Answered query.now hashes.now counts.old counts.new coords.new result }
{
    let joined = Hashes {
        query,
        items: hashes,
    };
    let n = number(joined, keys, coords);
    mark(&coords[..query.len()], counts);
    n
}
