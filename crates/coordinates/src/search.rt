// Coordinates by sorting the hashes, leaving their repeats out, and looking each hash up: right for all inputs.
ghost use Rattle.std.specs.Prelude.{◌≡◌, ◌++◌, map, ◌+◌, ◌≤◌, length};
ghost use Rattle.base.specs.Lists.{Asc};
ghost use Rattle.rules.specs.Score.{number_of};
ghost use Rattle.coordinates.specs.Coordinates.{Lent, Numbered};

use super::joined::Hashes;

// By index, and no `copy_from_slice`: it wants `memmove` from outside, and the archive for C needs no name but `memset`.
fn gather(hashes: Hashes<'_>, keys: &mut [u64])
    requires { length keys.old ≡ length hashes.query.now + length hashes.items.now }
    ensures { keys.new ≡ hashes.entry.query.now ++ hashes.entry.items.now }
{
    for i in 0..keys.len() {
        keys[i] = hashes.at(i);
    }
}

// The number of each hash among these coordinates. By index: what is written through an iterator is not known to the proof afterwards.
fn look_up(hashes: Hashes<'_>, among: &[u64], coords: &mut [u32])
    requires { Asc among.now × (length among.now ≤ 65536) × (length coords.old ≡ length hashes.query.now + length hashes.items.now) }
    ensures { coords.new ≡ map (number_of among.now) (hashes.entry.query.now ++ hashes.entry.items.now) }
{
    for i in 0..coords.len() {
        coords[i] = keys::count_below(among, hashes.at(i)) as u32;
    }
}

// Numbers all hashes and returns how many coordinates there are.
pub fn number(hashes: Hashes<'_>, keys: &mut [u64], coords: &mut [u32]) -> usize
    requires { Lent hashes.query.now hashes.items.now keys.old coords.old }
    ensures { Numbered hashes.entry.query.now hashes.entry.items.now coords.new result }
{
    gather(hashes, keys);
    let n = keys::distinct(keys);
    look_up(hashes, &keys[..n], coords);
    n
}
