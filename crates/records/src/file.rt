// Records read from a vectors file.
ghost use Rattle.std.specs.Prelude.{◌≤◌, length};

use crate::record::{Fault, Record};
use std::io::Read;
use std::{io, slice};

// No record has more words than this.
pub const LONGEST: usize = 8256;

// Reads words into a list until it is full.
fn read_words<R: Read>(reader: &mut R, words: &mut [u64]) -> io::Result<()>
    requires { length words.old ≤ LONGEST }
{
    let mut bytes = [0u8; 8 * LONGEST];
    let read = &mut bytes[..8 * words.len()];
    reader.read_exact(read)?;
    let (eights, _) = read.as_chunks::<8>();
    for (word, eight) in words.iter_mut().zip(eights) {
        *word = u64::from_le_bytes(*eight);
    }
    Ok(())
}

// Reads the head of a file and answers how many records follow.
pub fn count<R: Read>(reader: &mut R) -> io::Result<u64> {
    let mut head = [0u64; 4];
    read_words(reader, &mut head)?;
    Ok(head[2])
}

// Reads the next record into the room: its first word is its length, this one counted.
pub fn next<'a, R: Read>(reader: &mut R, room: &'a mut [u64]) -> Result<Record<'a>, Fault> {
    let (length, rest) = room.split_first_mut().ok_or(Fault::Malformed)?;
    read_words(reader, slice::from_mut(length))?;
    let n = usize::try_from(*length)?;
    if n == 0 || LONGEST < n {
        return Err(Fault::Malformed);
    }
    read_words(reader, rest.get_mut(..n - 1).ok_or(Fault::Malformed)?)?;
    Ok(Record { words: &room[..n] })
}
