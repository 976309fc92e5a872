// The units of a tag's fields, one after the other, in place.
ghost use Rattle.std.specs.Prelude.{◌<◌};

use crate::entry::Entry;
use job_fields::reader::Reader;

// What is left of them: whole units of `size` bytes in the data of the field that was met last, and those of the fields behind it.
#[derive(Clone, Copy, Debug)]
pub struct Units<'a> {
    reader: Reader<'a>,
    left: &'a [u8],
    tag: u8,
    size: usize,
    ghost some: { 0 < size },
}

impl<'a> Units<'a> {
    ghost use Rattle.std.specs.Prelude.{◌≡◌, ◌+◌, ◌≤◌, ◌∷◌, [], length, map, MatchOption, IfSome};
    ghost use Rattle.base.specs.Buffers.{over};
    ghost use Rattle.job.specs.Units.{column_of, rest_of};

    // All of a job's.
    pub fn of(job: &'a [u8], tag: u8, size: usize) -> Units<'a>
        requires { 0 < size }
        ensures rest { rest_of result ≡ column_of job.now tag size }
        ensures size { result.size ≡ size }
    {
        Units {
            reader: Reader::new(job),
            left: &[],
            tag,
            size,
        }
    }

    pub fn next_unit(&mut self) -> Option<&'a [u8]>
        ensures unit { MatchOption result (rest_of self.old ≡ []) (λ u. rest_of self.old ≡ u.now ∷ rest_of self.new) }
        ensures long { IfSome result (λ u. length u.now ≡ self.old.size) }
        ensures size { self.new.size ≡ self.old.size }
    {
        while self.left.len() < self.size {
            let field = self.reader.field()?;
            if field.tag == self.tag {
                self.left = field.bytes;
            }
        }
        let (unit, left) = self.left.split_at(self.size);
        self.left = left;
        Some(unit)
    }

    // A column: of each unit that is left the number at an offset, into the front of a list; how many.
    pub fn fill<T: Entry>(self, offset: usize, out: &mut [T]) -> usize
        requires within { offset + T.size ≤ self.size }
        requires room { length (rest_of self) ≤ length out.old }
        ensures count { result ≡ length (rest_of self.entry) }
        ensures filled { out.new ≡ over (map (T.at offset) (rest_of self.entry)) out.old }
    {
        let mut units = self;
        let mut n = 0;
        while let Some(unit) = units.next_unit() {
            out[n] = T::read(unit, offset);
            n += 1;
        }
        n
    }
}
