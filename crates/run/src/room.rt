// The lists that a job is read into: arrays of the program's limits, so that none is ever too short.
use base::Refusal;
use job::fill::Decoded;
use job::fronts::Job;

#[derive(Drop)]
pub struct JobRoom {
    pub query: [u64; 512],
    pub hashes: [u64; 2048],
    pub starts: [u32; 2048],
    pub ends: [u32; 2048],
    pub identities: [f64; 513],
    pub uppers: [f64; 513],
    pub identity_bits: [u64; 513],
    pub upper_bits: [u64; 513],
}

impl JobRoom {
    ghost use Rattle.job.specs.Read.{ReadPromise};
    ghost use Rattle.run.specs.Held.{lists_in, Held, Fronts};

    pub fn read(&mut self, bytes: &[u8]) -> Result<Decoded, Refusal>
        ensures { ReadPromise bytes.now result (lists_in self.old) (lists_in self.new) }
    {
        job::read(
            bytes,
            &mut self.query,
            &mut self.hashes,
            &mut self.starts,
            &mut self.ends,
            &mut self.identities,
            &mut self.uppers,
            &mut self.identity_bits,
            &mut self.upper_bits,
        )
    }

    // The job that stands at the fronts.
    pub fn job(&self, decoded: Decoded) -> Job<'_>
        requires { Held decoded (lists_in self.now) }
        ensures { Fronts decoded (lists_in self.now) result }
    {
        Job {
            mode: decoded.mode,
            asked: decoded.asked,
            minimum: decoded.minimum,
            query: &self.query[..decoded.query],
            hashes: &self.hashes[..decoded.items],
            starts: &self.starts[..decoded.items],
            ends: &self.ends[..decoded.items],
            identities: &self.identities[..decoded.estimates],
            uppers: &self.uppers[..decoded.estimates],
            identity_bits: &self.identity_bits[..decoded.estimates],
            upper_bits: &self.upper_bits[..decoded.estimates],
        }
    }
}
