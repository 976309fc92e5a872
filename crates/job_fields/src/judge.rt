// The first pass: it judges the whole file, field by field from the front, and writes nothing.
ghost use Rattle.std.specs.Prelude.{◌≡◌, ◌+◌, ◌^◌, ◌<◌, ◌≤◌, length};
ghost use Rattle.rules.specs.Limits.{job_limit};
ghost use Rattle.rules.specs.Job as rules;
ghost use Rattle.job_fields.specs.Reader.{field_of, left_of, taken_of};
ghost use Rattle.job_fields.specs.Judge.{earlier_of, mode_after, seen_after, step_of, placed, verdict_of};

use crate::mode::Mode;
use crate::reader::{Field, Reader};
use crate::table;
use base::{Reason, Refusal};

// The byte of 01 that is known.
const VERSION: u8 = 1;

// The most bytes that a job may have.
const JOB_LIMIT: usize = 65535;

// What the fields so far tell the next: the last tag, 0 where there is none, as in the rules, since it lies below every tag; the mode, minimizer as long as none was read; and how many bytes the fields with that tag
// have, joined.
#[derive(Clone, Copy, Debug, PartialEq, Eq)]
pub struct Seen {
    pub before: u8,
    pub mode: Mode,
    pub joined: usize,
}

impl Seen {
    // How many bytes the earlier fields with a tag have: tags ascend, so only those with the last tag count.
    #[tactic(auto, unfolding(crate::specs::Judge::earlier_of, base::specs::Pick::pick))]
    fn earlier(self, tag: u8) -> usize
        ensures { result ≡ earlier_of self tag }
    {
        if tag == self.before { self.joined } else { 0 }
    }

    // 15: a wrong value in 01 or 02. Else the mode, as it is known after the field.
    #[tactic(auto, unfolding(crate::specs::Judge::mode_after, crate::specs::Judge::mode_then, crate::specs::Mode::mode_from, rules::specs::Job::wrong_value, base::specs::Pick::pick))]
    fn mode_after(self, field: Field<'_>) -> Result<Mode, Reason>
        ensures { result ≡ mode_after self (field_of field.entry) }
    {
        let first = field.first();
        match field.tag {
            table::VERSION_TAG if first != VERSION => Err(Reason::FieldMalformed),
            table::MODE_TAG => Mode::try_from(first),
            _ => Ok(self.mode),
        }
    }

    // What is known after a whole field, or the first of 13 to 16 that is wrong with it.
    fn after(self, field: Field<'_>) -> Result<Seen, Reason>
        requires { self.joined + length field.bytes.now < 2 ^ 32 }
        ensures { result ≡ seen_after self (field_of field.entry) }
    {
        let Some(row) = table::find(field.tag) else {
            return Err(Reason::UnknownTag);
        };
        let length = field.bytes.len();
        let joined = self.earlier(field.tag) + length;
        if row.is_misplaced(self.before) {
            return Err(Reason::FieldMisplaced);
        }
        if !row.fits(self.mode, length) {
            return Err(Reason::FieldMalformed);
        }
        let mode = self.mode_after(field)?;
        if row.is_passed(self.mode, joined) {
            return Err(Reason::FieldLimit);
        }
        Ok(Seen {
            before: field.tag,
            mode,
            joined,
        })
    }
}

// What is known after the field at which the reader stands, or what is wrong there.
fn step(reader: &mut Reader<'_>, seen: Seen) -> Result<Seen, Reason>
    requires long { length reader.old.job.now ≤ job_limit }
    requires joined { seen.joined ≤ job_limit }
    ensures job { reader.new.job.now ≡ reader.old.job.now }
    ensures offset { reader.new.offset ≡ reader.old.offset + taken_of (left_of reader.old) }
    ensures step { result ≡ step_of seen (left_of reader.old) }
{
    let Some(field) = reader.field() else {
        return Err(Reason::JobCut);
    };
    seen.after(field)
}

// The same, with the offset of what is wrong.
fn next(reader: &mut Reader<'_>, seen: Seen) -> Result<Seen, Refusal>
    requires long { length reader.old.job.now ≤ job_limit }
    requires joined { seen.joined ≤ job_limit }
    ensures job { reader.new.job.now ≡ reader.old.job.now }
    ensures offset { reader.new.offset ≡ reader.old.offset + taken_of (left_of reader.old) }
    ensures step { result ≡ placed reader.old.offset (step_of seen (left_of reader.old)) }
{
    let place = reader.offset() as u32;
    step(reader, seen).map_err(|reason| Refusal { reason, place })
}

// All fields from the front, to FF.
fn walk(job: &[u8]) -> Result<Mode, Refusal>
    requires { length job.now ≤ job_limit }
    ensures { result ≡ verdict_of (rules.read job.now) }
{
    let mut reader = Reader::new(job);
    let mut seen = Seen {
        before: 0,
        mode: Mode::Minimizer,
        joined: 0,
    };
    loop {
        seen = next(&mut reader, seen)?;
        if seen.before == table::END_TAG {
            break;
        }
    }
    if reader.is_at_end() {
        return Ok(seen.mode);
    }
    Err(Refusal {
        reason: Reason::BytesBehind,
        place: reader.offset() as u32,
    })
}

// The verdict on a job's bytes: the first refusal from the front with the offset of the field's tag, or, of a file that is whole, its mode.
#[tactic(auto, using(crate::proofs::Walking::too_long))]
pub fn judge(job: &[u8]) -> Result<Mode, Refusal>
    ensures { result ≡ verdict_of (rules.read job.now) }
{
    if JOB_LIMIT < job.len() {
        return Err(Refusal {
            reason: Reason::JobTooLong,
            place: 0,
        });
    }
    walk(job)
}
