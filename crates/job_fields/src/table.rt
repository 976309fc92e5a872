// The fixed table of a job's fields: one row for each tag, which the reader consults for every field.
ghost use Rattle.std.specs.Prelude.{◌≡◌, ◌*◌, ◌^◌, ◌<◌, take, ltb};
ghost use Rattle.rules.specs.Lists.{count};
ghost use Rattle.rules.specs.Job.{field_table};
ghost use Rattle.rules.specs.Job as rules;
ghost use Rattle.job_fields.specs.Table.{rule_of, rows_of, rows_with, between};
ghost use Rattle.job_fields.specs.Mode.{byte_of};

use crate::mode::Mode;

// The tags, in the order of the fields.
pub const VERSION_TAG: u8 = 0x01;

pub const MODE_TAG: u8 = 0x02;

pub const SETTINGS_TAG: u8 = 0x03;

pub const MINIMUM_TAG: u8 = 0x04;

pub const QUERY_TAG: u8 = 0x05;

pub const ITEMS_TAG: u8 = 0x06;

pub const ESTIMATES_TAG: u8 = 0x07;

pub const END_TAG: u8 = 0xff;

// A row: the tag; the size of a unit in minimizer mode, and of a span in interval mode; whether the field is one unit exactly, or any number of whole units; whether it
// repeats, joined; whether it must stand; how many units the program takes, joined.
#[derive(Clone, Copy, Debug, PartialEq, Eq)]
pub struct Row {
    pub tag: u8,
    pub unit: u16,
    pub span: u16,
    pub one: bool,
    pub repeats: bool,
    pub needed: bool,
    pub limit: u16,
}

pub const TABLE: [Row; 8] = [
    Row {
        tag: VERSION_TAG,
        unit: 1,
        span: 1,
        one: true,
        repeats: false,
        needed: true,
        limit: 1,
    },
    Row {
        tag: MODE_TAG,
        unit: 1,
        span: 1,
        one: true,
        repeats: false,
        needed: true,
        limit: 1,
    },
    Row {
        tag: SETTINGS_TAG,
        unit: 20,
        span: 20,
        one: true,
        repeats: false,
        needed: true,
        limit: 1,
    },
    Row {
        tag: MINIMUM_TAG,
        unit: 8,
        span: 8,
        one: true,
        repeats: false,
        needed: false,
        limit: 1,
    },
    Row {
        tag: QUERY_TAG,
        unit: 8,
        span: 8,
        one: false,
        repeats: false,
        needed: true,
        limit: 512,
    },
    Row {
        tag: ITEMS_TAG,
        unit: 12,
        span: 16,
        one: false,
        repeats: true,
        needed: true,
        limit: 2048,
    },
    Row {
        tag: ESTIMATES_TAG,
        unit: 16,
        span: 16,
        one: false,
        repeats: true,
        needed: true,
        limit: 513,
    },
    Row {
        tag: END_TAG,
        unit: 0,
        span: 0,
        one: true,
        repeats: false,
        needed: true,
        limit: 1,
    },
];

impl Row {
    // 14: tag out of order, repeated, or a field missing before it.
    #[tactic(auto, unfolding(rules::specs::Job::misplaced))]
    pub fn is_misplaced(self, before: u8) -> bool
        ensures { result ≡ rules.misplaced before (rule_of self) }
    {
        self.tag < before || (self.tag == before && !self.repeats) || missing(before, self.tag)
    }

    #[tactic(auto, unfolding(rules::specs::Job::unit_of, base::specs::Pick::pick))]
    fn unit_in(self, mode: Mode) -> usize
        ensures unit { result ≡ rules.unit_of (byte_of mode) (rule_of self) }
        ensures small { result < 2 ^ 16 }
    {
        match mode {
            Mode::Minimizer => usize::from(self.unit),
            Mode::Interval => usize::from(self.span),
        }
    }

    // 15: whether a length fits the field's kind. (Of no byte a unit, only none are whole.)
    #[tactic(auto, unfolding(rules::specs::Job::fits, base::specs::Pick::pick))]
    pub fn fits(self, mode: Mode, length: usize) -> bool
        ensures { result ≡ rules.fits (byte_of mode) (rule_of self) length }
    {
        let unit = self.unit_in(mode);
        if self.one {
            length == unit
        } else {
            length.is_multiple_of(unit)
        }
    }

    // 16: program limit passed, by the bytes of a field and of the earlier ones with its tag.
    pub fn is_passed(self, mode: Mode, joined: usize) -> bool
        ensures { result ≡ ltb (self.limit * rules.unit_of (byte_of mode) (rule_of self)) joined }
    {
        usize::from(self.limit) * self.unit_in(mode) < joined
    }
}

// The row of a tag, if the table has one.
pub fn find(tag: u8) -> Option<Row>
    ensures { rows_of result ≡ take 1 (rows_with tag) }
{
    TABLE.iter().copied().find(|row| row.tag == tag)
}

// Whether a field that must stand is missing between two tags.
pub fn missing(before: u8, tag: u8) -> bool
    ensures { result ≡ ltb 0 (count (between before tag) field_table) }
{
    TABLE
        .iter()
        .any(|row| row.needed && before < row.tag && row.tag < tag)
}
