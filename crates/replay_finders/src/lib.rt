// One stored finder, of either kind: the call is made as the record says, and its answer and every element of the lent lists are held to the
// record. The two files have one form; what only intervals have is empty in the minimizers' file.
#![tactic(auto)]

use base::{Finding, Refusal};
use records::lists::{POISON, POISON_WORD, holds, zeroed};
use records::record::{Lists, MOST};
use records::{Fault, Record};

// Where the words of the answer stand, where those of its counts, and where the lists begin: those of the hits, and then the contigs, the starts
// and the ends of the ranges, as many of each as the first count says, which a refused record has too.
const ANSWER: usize = 13;

const RANGES: usize = ANSWER + 2;

const LISTS: usize = 17;

// Room for the lists of the hits. The arrays stand in the functions that replay: a struct of arrays that is handed back is copied whole.
#[derive(Drop)]
struct Rooms<'a> {
    groups: &'a mut [u32],
    contigs: &'a mut [u32],
    starts: &'a mut [u32],
    ends: &'a mut [u32],
}

// The hits that a call is told.
#[derive(Clone, Copy)]
struct Hits<'a> {
    groups: &'a [u32],
    contigs: &'a [u32],
    starts: &'a [u32],
    ends: &'a [u32],
}

impl<'a> Hits<'a> {
    fn read(lists: &mut Lists<'_>, rooms: Rooms<'a>) -> Result<Hits<'a>, Fault> {
        let Rooms {
            groups,
            contigs,
            starts,
            ends,
        } = rooms;
        Ok(Hits {
            groups: lists.read(4, groups)?,
            contigs: lists.read(5, contigs)?,
            starts: lists.read(6, starts)?,
            ends: lists.read(7, ends)?,
        })
    }
}

// The lists that both kinds are lent, after the call.
#[derive(Clone, Copy)]
struct Lent<'a> {
    keys: &'a [u64],
    contigs: &'a [u32],
    starts: &'a [u32],
    ends: &'a [u32],
}

impl Lent<'_> {
    // Whether so many keys are zero, the outputs hold the record's ranges, and all else is as it was.
    fn left(self, keys: usize, mut ranges: Lists<'_>) -> Result<bool, Fault> {
        Ok(
            zeroed(self.keys, keys)
                && holds(self.contigs, ranges.list(RANGES)?)
                && holds(self.starts, ranges.list(RANGES)?)
                && holds(self.ends, ranges.list(RANGES)?),
        )
    }
}

// Whether the record says this of the answer.
fn answered(record: Record<'_>, answer: Result<Finding, Refusal>) -> bool {
    match answer {
        Ok(finding) => {
            record.says(ANSWER, &[0])
                && record.says(RANGES, &[u64::from(finding.count), u64::from(finding.hits)])
        }
        Err(refusal) => record.refuses(ANSWER, refusal),
    }
}

fn find_minimizers(record: Record<'_>, hits: Hits<'_>, ranges: Lists<'_>) -> Result<(), Fault> {
    let mut keys = [POISON_WORD; MOST];
    let mut contigs = [POISON; MOST];
    let mut starts = [POISON; MOST];
    let mut ends = [POISON; MOST];
    let answer = candidate_window::minimizer_finder(
        hits.groups,
        hits.contigs,
        hits.starts,
        record.word(3)?,
        record.number(1)?,
        record.number(2)?,
        &mut keys[..record.size(8)?],
        &mut contigs[..record.size(10)?],
        &mut starts[..record.size(11)?],
        &mut ends[..record.size(12)?],
    );
    let cleared = if answer.is_ok() { record.size(5)? } else { 0 };
    let lent = Lent {
        keys: &keys,
        contigs: &contigs,
        starts: &starts,
        ends: &ends,
    };
    Fault::unless(answered(record, answer) && lent.left(cleared, ranges)?)
}

// The interval finder wants keys of ends besides.
fn find_intervals(record: Record<'_>, hits: Hits<'_>, ranges: Lists<'_>) -> Result<(), Fault> {
    let mut keys = [POISON_WORD; MOST];
    let mut end_keys = [POISON_WORD; MOST];
    let mut contigs = [POISON; MOST];
    let mut starts = [POISON; MOST];
    let mut ends = [POISON; MOST];
    let answer = candidate_intervals::interval_finder(
        hits.groups,
        hits.contigs,
        hits.starts,
        hits.ends,
        record.word(3)?,
        record.number(1)?,
        &mut keys[..record.size(8)?],
        &mut end_keys[..record.size(9)?],
        &mut contigs[..record.size(10)?],
        &mut starts[..record.size(11)?],
        &mut ends[..record.size(12)?],
    );
    let cleared = if answer.is_ok() { record.size(5)? } else { 0 };
    let lent = Lent {
        keys: &keys,
        contigs: &contigs,
        starts: &starts,
        ends: &ends,
    };
    Fault::unless(
        answered(record, answer) && zeroed(&end_keys, cleared) && lent.left(cleared, ranges)?,
    )
}

// Replays a record of the minimizer finder. What it has of `intervals` is in the structs and `answered`; the rest is the call, whose lists
// differ, so that one function of both would pass as many to a closure.
// Not inlined: else the arrays of every replay stand in one frame, side by side.
#[inline(never)]
pub fn minimizers(record: Record<'_>) -> Result<(), Fault> {
    // No list is lent for keys of ends, but the record has a size for one.
    record.size(9)?;
    let mut groups = [0u32; MOST];
    let mut contigs = [0u32; MOST];
    let mut starts = [0u32; MOST];
    let mut ends = [0u32; MOST];
    let rooms = Rooms {
        groups: &mut groups,
        contigs: &mut contigs,
        starts: &mut starts,
        ends: &mut ends,
    };
    let mut lists = record.lists(LISTS)?;
    let hits = Hits::read(&mut lists, rooms)?;
    find_minimizers(record, hits, lists)
}

// Replays a record of the interval finder.
// Not inlined, likewise.
#[inline(never)]
pub fn intervals(record: Record<'_>) -> Result<(), Fault> {
    let mut groups = [0u32; MOST];
    let mut contigs = [0u32; MOST];
    let mut starts = [0u32; MOST];
    let mut ends = [0u32; MOST];
    let rooms = Rooms {
        groups: &mut groups,
        contigs: &mut contigs,
        starts: &mut starts,
        ends: &mut ends,
    };
    let mut lists = record.lists(LISTS)?;
    let hits = Hits::read(&mut lists, rooms)?;
    find_intervals(record, hits, lists)
}
