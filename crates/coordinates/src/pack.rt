// Coordinates from packed keys: the leading bits of each hash over its place. Put in order, they bring equal hashes together and say where
// each came from, so that one walk numbers them all, with no search.
ghost use Rattle.std.specs.Prelude.{◌≡◌, true, ℕ, ◌+◌, ◌<◌, length, get_or, eqb, IfSome};
ghost use Rattle.base.specs.Pick.{pick};
ghost use Rattle.coordinates.specs.Coordinates.{Lent, Numbered};
ghost use Rattle.coordinates.specs.Packed.{Flagged, Placed, Places, place_of};

use super::joined::Hashes;
use packed_keys::spread;

// The bits that any of the hashes has.
fn bits_of(hashes: &[u64]) -> u64 {
    hashes.iter().fold(0, |bits, hash| bits | *hash)
}

// How far to shift so that the keys keep the most of the hashes' bits. The walk is right for every shift.
fn shift_of(bits: u64) -> u32
    ensures { result < 64 }
{
    bits.leading_zeros() % 64
}

// The place that a key holds.
fn place_in(key: u64) -> usize
    ensures { (result ≡ place_of key) × (result < 65536) }
{
    (key % 65536) as usize
}

// Sets the flag at each key's place; false where a place has no flag.
fn flag(keys: &[u64], flags: &mut [u32]) -> bool
    requires { Flagged keys.now flags.old 0 }
    ensures { result ≡ true → Flagged keys.now flags.new (length keys.now) }
{
    for key in keys {
        let place = place_in(*key);
        if flags.len() <= place {
            return false;
        }
        flags[place] = 1;
    }
    true
}

// Whether all flags are set: joined by AND, since a branch on each would cost more.
fn all_set(flags: &[u32]) -> bool
    ensures { result ≡ true → (i : ℕ) → i < length flags.now → 0 < get_or flags.now i 0 }
{
    let mut bits = 1;
    for flag in flags {
        bits &= *flag;
    }
    0 < bits
}

// Whether the keys hold every place, and no other. The flags are lent for the question, one for each place.
fn placed(keys: &[u64], flags: &mut [u32]) -> bool
    ensures { result ≡ true → Placed (length flags.old) keys.now }
{
    flags.fill(0);
    flag(keys, flags) && all_set(flags)
}

// The number after c where the hash differs from the one before it.
fn next_number(c: u32, hash: u64, prev: u64) -> u32
    requires { c < 65536 }
    ensures { result ≡ c + pick (eqb hash prev) 0 1 }
{
    c + u32::from(hash != prev)
}

// Numbers the hashes in the order of the keys and returns how many coordinates there are. None where there is no key, or the hashes do not
// ascend: the keys hold the leading bits alone.
fn walk(hashes: Hashes<'_>, keys: &[u64], coords: &mut [u32]) -> Option<usize>
    requires { Places hashes.query.now hashes.items.now keys.now × (length coords.old ≡ length keys.now) }
    ensures { IfSome result (λ r. Numbered hashes.entry.query.now hashes.entry.items.now coords.new r) }
{
    if keys.is_empty() {
        return None;
    }
    let mut prev = hashes.at(place_in(keys[0]));
    let mut c: u32 = 0;
    for key in keys {
        let place = place_in(*key);
        let hash = hashes.at(place);
        if hash < prev {
            return None;
        }
        c = next_number(c, hash, prev);
        coords[place] = c;
        prev = hash;
    }
    Some(c as usize + 1)
}

// Numbers all hashes and returns how many coordinates there are, if the keys tell the hashes' order.
pub fn number(hashes: Hashes<'_>, keys: &mut [u64], coords: &mut [u32]) -> Option<usize>
    requires { Lent hashes.query.now hashes.items.now keys.old coords.old }
    ensures { IfSome result (λ r. Numbered hashes.entry.query.now hashes.entry.items.now coords.new r) }
{
    let shift = shift_of(bits_of(hashes.query) | bits_of(hashes.items));
    spread(hashes.query, hashes.items, shift, keys);
    if !placed(keys, coords) {
        return None;
    }
    walk(hashes, keys, coords)
}
