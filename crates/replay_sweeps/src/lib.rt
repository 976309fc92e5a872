// One stored sweep, of either kind: the call is made as the record says, and its answer and every element of the lent lists are held to the
// record. The two files have one form; what only intervals have is empty in the minimizers' file.
#![tactic(auto)]

use base::{Outcome, Place, Range, Refusal, Settings, Stats};
use records::floats::has_bits;
use records::lists::{POISON, POISON_WORD, zeroed};
use records::record::MOST;
use records::{Fault, Record};

// Where the words of the answer stand, where those of its place and of its counts, and where the lists of the call begin.
const ANSWER: usize = 19;

const PLACE: usize = ANSWER + 2;

const COUNTS: usize = ANSWER + 9;

const LISTS: usize = 31;

// Room for the lists that a call takes at a width of their own. The arrays stand in the functions that replay: a struct of arrays that is handed
// back is copied whole.
#[derive(Drop)]
struct Rooms<'a> {
    starts: &'a mut [u32],
    ends: &'a mut [u32],
    identities: &'a mut [f64],
    uppers: &'a mut [f64],
}

// What a call is told.
#[derive(Clone, Copy)]
struct Task<'a> {
    settings: Settings,
    window: u32,
    range: Range,
    query: &'a [u64],
    hashes: &'a [u64],
    starts: &'a [u32],
    ends: &'a [u32],
    identities: &'a [f64],
    uppers: &'a [f64],
    minimum: f64,
}

impl<'a> Task<'a> {
    fn read(record: Record<'a>, rooms: Rooms<'a>) -> Result<Task<'a>, Fault> {
        let Rooms {
            starts,
            ends,
            identities,
            uppers,
        } = rooms;
        let mut lists = record.lists(LISTS)?;
        Ok(Task {
            settings: Settings {
                kmer: record.number(1)?,
                length: record.number(3)?,
            },
            window: record.number(2)?,
            range: Range {
                start: record.number(4)?,
                end: record.number(5)?,
            },
            query: lists.list(7)?,
            hashes: lists.list(8)?,
            starts: lists.read(9, starts)?,
            ends: lists.read(10, ends)?,
            identities: lists.read(11, identities)?,
            uppers: lists.read(12, uppers)?,
            minimum: float_bits::float_of(record.word(6)?),
        })
    }
}

// The work lists that both kinds are lent, after the call.
#[derive(Clone, Copy)]
struct Work<'a> {
    keys: &'a [u64],
    counts: &'a [u32],
    coords: &'a [u32],
    bits: &'a [u64],
    summary: &'a [u64],
}

impl Work<'_> {
    // Whether what so many hashes need is zero and all else is as it was.
    fn left(self, hashes: usize) -> bool {
        let blocks = hashes.div_ceil(64);
        zeroed(self.keys, hashes)
            && zeroed(self.counts, hashes)
            && zeroed(self.coords, hashes)
            && zeroed(self.bits, blocks)
            && zeroed(self.summary, blocks.div_ceil(64))
    }
}

// Whether the record says this of the place. Where there is none, the words of one are not looked at.
fn placed(record: Record<'_>, place: Option<Place>) -> Result<bool, Fault> {
    match place {
        Some(place) => {
            let words = [
                1,
                place.start.0,
                place.end.0,
                u64::from(place.shared),
                u64::from(place.size),
            ];
            Ok(
                record.says(PLACE, &words)
                    && has_bits(place.estimate.identity, record.word(PLACE + 5)?)
                    && has_bits(place.estimate.upper, record.word(PLACE + 6)?),
            )
        }
        None => Ok(record.says(PLACE, &[0])),
    }
}

fn counted(record: Record<'_>, stats: Stats) -> bool {
    let words = [
        stats.windows,
        u64::from(stats.coords),
        u64::from(stats.items),
    ];
    record.says(COUNTS, &words)
}

// Whether the record says this of the answer.
fn answered(record: Record<'_>, answer: Result<Outcome, Refusal>) -> Result<bool, Fault> {
    match answer {
        Ok(outcome) => Ok(
            record.says(ANSWER, &[0])
                && placed(record, outcome.place)?
                && counted(record, outcome.stats),
        ),
        Err(refusal) => Ok(record.refuses(ANSWER, refusal)),
    }
}

// How many hashes have left their zeros in the work lists: those of the query and the items, and none where the call is refused.
fn hashes_of(record: Record<'_>, answer: Result<Outcome, Refusal>) -> Result<usize, Fault> {
    if answer.is_err() {
        return Ok(0);
    }
    Ok(record.size(7)? + record.size(8)?)
}

fn sweep_minimizers(record: Record<'_>, task: Task<'_>) -> Result<(), Fault> {
    let mut keys = [POISON_WORD; MOST];
    let mut counts = [POISON; MOST];
    let mut coords = [POISON; MOST];
    let mut bits = [POISON_WORD; MOST];
    let mut summary = [POISON_WORD; MOST];
    let answer = minimizer_sweep::minimizer_sweep(
        task.settings,
        task.window,
        task.range,
        task.query,
        task.hashes,
        task.starts,
        task.identities,
        task.uppers,
        task.minimum,
        &mut keys[..record.size(13)?],
        &mut counts[..record.size(14)?],
        &mut coords[..record.size(15)?],
        &mut bits[..record.size(16)?],
        &mut summary[..record.size(17)?],
    );
    let hashes = hashes_of(record, answer)?;
    let work = Work {
        keys: &keys,
        counts: &counts,
        coords: &coords,
        bits: &bits,
        summary: &summary,
    };
    Fault::unless(answered(record, answer)? && work.left(hashes))
}

// The interval sweep wants event keys besides, two for each interval.
fn sweep_intervals(record: Record<'_>, task: Task<'_>) -> Result<(), Fault> {
    let mut keys = [POISON_WORD; MOST];
    let mut counts = [POISON; MOST];
    let mut coords = [POISON; MOST];
    let mut bits = [POISON_WORD; MOST];
    let mut summary = [POISON_WORD; MOST];
    let mut events = [POISON_WORD; MOST];
    let answer = interval_sweep::interval_sweep(
        task.settings,
        task.range,
        task.query,
        task.hashes,
        task.starts,
        task.ends,
        task.identities,
        task.uppers,
        task.minimum,
        &mut keys[..record.size(13)?],
        &mut counts[..record.size(14)?],
        &mut coords[..record.size(15)?],
        &mut bits[..record.size(16)?],
        &mut summary[..record.size(17)?],
        &mut events[..record.size(18)?],
    );
    let hashes = hashes_of(record, answer)?;
    let ends = if answer.is_ok() {
        2 * record.size(10)?
    } else {
        0
    };
    let work = Work {
        keys: &keys,
        counts: &counts,
        coords: &coords,
        bits: &bits,
        summary: &summary,
    };
    Fault::unless(answered(record, answer)? && work.left(hashes) && zeroed(&events, ends))
}

// Replays a record of the minimizer sweep. What it has of `intervals` is in the structs and `answered`; the rest is the call, whose lists
// differ, so that one function of both would pass as many to a closure.
// Not inlined: else the arrays of every replay stand in one frame, side by side.
#[inline(never)]
pub fn minimizers(record: Record<'_>) -> Result<(), Fault> {
    // No list is lent for event keys, but the record has a size for one.
    record.size(18)?;
    let mut starts = [0u32; MOST];
    let mut ends = [0u32; MOST];
    let mut identities = [0.0; MOST];
    let mut uppers = [0.0; MOST];
    let rooms = Rooms {
        starts: &mut starts,
        ends: &mut ends,
        identities: &mut identities,
        uppers: &mut uppers,
    };
    sweep_minimizers(record, Task::read(record, rooms)?)
}

// Replays a record of the interval sweep.
// Not inlined, likewise.
#[inline(never)]
pub fn intervals(record: Record<'_>) -> Result<(), Fault> {
    let mut starts = [0u32; MOST];
    let mut ends = [0u32; MOST];
    let mut identities = [0.0; MOST];
    let mut uppers = [0.0; MOST];
    let rooms = Rooms {
        starts: &mut starts,
        ends: &mut ends,
        identities: &mut identities,
        uppers: &mut uppers,
    };
    sweep_intervals(record, Task::read(record, rooms)?)
}
