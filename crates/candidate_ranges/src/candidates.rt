// Candidate ranges: whether two join, the two as one, the lists that they are written to, and how they are joined as they come.
ghost use Rattle.std.specs.Prelude.{◌≡◌, ◌+◌, ◌≤◌, None};
ghost use Rattle.rules.specs.Finder as finder;
ghost use Rattle.candidate_ranges.specs.Ranges.{range_of, range_in, begun, Room, Put, Pushed, Finished};

// A range of positions in a contig, both ends included.
#[derive(Clone, Copy)]
pub struct L1Candidate {
    pub contig: u32,
    pub start: u32,
    pub end: u32,
}

impl L1Candidate {
    // Whether the next range joins this one: in its contig, and starting within `gap` of its end.
    pub fn joins(self, next: L1Candidate, gap: u64) -> bool
        requires { gap ≤ 1 }
        ensures { result ≡ finder.joins gap (range_of self) (range_of next) }
    {
        self.contig == next.contig && u64::from(next.start) <= u64::from(self.end) + gap
    }

    // The two as one.
    pub fn joined(self, next: L1Candidate) -> L1Candidate
        ensures { range_of result ≡ finder.joined (range_of self) (range_of next) }
    {
        L1Candidate {
            end: self.end.max(next.end),
            ..self
        }
    }
}

// Where ranges are written: three lists, side by side.
#[derive(Drop)]
pub struct CandidateLists<'a> {
    pub contigs: &'a mut [u32],
    pub starts: &'a mut [u32],
    pub ends: &'a mut [u32],
}

impl CandidateLists<'_> {
    // Writes a range at i.
    pub fn put(&mut self, i: usize, range: L1Candidate)
        requires { Room (i + 1) self.old }
        ensures { Put self.old i (range_of range) self.new }
    {
        self.contigs[i] = range.contig;
        self.starts[i] = range.start;
        self.ends[i] = range.end;
    }
}

// How many ranges are written, and the last, which is held until one comes that does not join it: so nothing is written that is not in the
// answer.
#[derive(Clone, Copy)]
pub struct Held {
    pub written: usize,
    pub last: Option<L1Candidate>,
}

impl Held {
    pub fn none() -> Held
        ensures written { result.written ≡ 0 }
        ensures last { range_in result.last ≡ None }
    {
        Held {
            written: 0,
            last: None,
        }
    }

    // Takes the next range.
    pub fn push(self, next: L1Candidate, gap: u64, lists: &mut CandidateLists<'_>) -> Held
        requires gap { gap ≤ 1 }
        requires room { Room (begun self) lists.old }
        ensures { Pushed gap self (range_of next) lists.old lists.new result }
    {
        let Some(last) = self.last else {
            return Held {
                last: Some(next),
                ..self
            };
        };
        if last.joins(next, gap) {
            return Held {
                last: Some(last.joined(next)),
                ..self
            };
        }
        lists.put(self.written, last);
        Held {
            written: self.written + 1,
            last: Some(next),
        }
    }

    // Writes the last range, and returns how many there are.
    pub fn finish(self, lists: &mut CandidateLists<'_>) -> usize
        requires { Room (begun self) lists.old }
        ensures { Finished self lists.old lists.new result }
    {
        let Some(last) = self.last else {
            return self.written;
        };
        lists.put(self.written, last);
        self.written + 1
    }
}
