// The fields of a job, read in place: the reader holds the job's bytes and the offset at which it stands.
ghost use Rattle.std.specs.Prelude.{◌≤◌, length};

// A whole field.
#[derive(Clone, Copy, Debug)]
pub struct Field<'a> {
    pub tag: u8,
    pub bytes: &'a [u8],
}

impl Field<'_> {
    ghost use Rattle.std.specs.Prelude.{◌≡◌, get_or};

    // The first byte of the data, 0 where there is none.
    pub fn first(&self) -> u8
        ensures { result ≡ get_or self.now.bytes.now 0 0 }
    {
        self.bytes.first().copied().unwrap_or(0)
    }
}

#[derive(Clone, Copy, Debug)]
pub struct Reader<'a> {
    job: &'a [u8],
    offset: usize,
    ghost inside: { offset ≤ length job.now },
}

impl<'a> Reader<'a> {
    ghost use Rattle.std.specs.Prelude.{◌≡◌, ◌==◌, ◌+◌, option_map};
    ghost use Rattle.job_fields.specs.Reader.{field_of, next_field, left_of, taken_of};

    // At the front of a job.
    pub fn new(job: &'a [u8]) -> Reader<'a>
        ensures job { result.job.now ≡ job.now }
        ensures front { result.offset ≡ 0 }
    {
        Reader { job, offset: 0 }
    }

    pub fn offset(&self) -> usize
        ensures { result ≡ self.now.offset }
    {
        self.offset
    }

    pub fn is_at_end(&self) -> bool
        ensures { result ≡ (self.now.offset == length self.now.job.now) }
    {
        self.offset == self.job.len()
    }

    // The field at the offset, if it stands whole: a tag, a length in two bytes, low byte first, the data. The reader then stands behind it.
    pub fn field(&mut self) -> Option<Field<'a>>
        ensures job { self.new.job.now ≡ self.old.job.now }
        ensures field { option_map field_of result ≡ next_field (left_of self.old) }
        ensures offset { self.new.offset ≡ self.old.offset + taken_of (left_of self.old) }
    {
        let rest = &self.job[self.offset..];
        let [tag, low, high, ..] = *rest else {
            return None;
        };
        let length = usize::from(u16::from_le_bytes([low, high]));
        let bytes = rest.get(3..3 + length)?;
        self.offset += 3 + length;
        Some(Field { tag, bytes })
    }
}
