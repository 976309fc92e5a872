// Runs a job: its bytes, and whether reading them failed, in; the printed bytes out. The reader, then the job's answer, then the lines.
#![tactic(auto)]

mod room;

ghost use Rattle.std.specs.Prelude.{◌≡◌};
ghost use Rattle.rules.specs.Calls.{RunPromise};
ghost use Rattle.lines.specs.Written.{told};

use base::{Outcome, Reason, Refusal};
use job_answer::answer_of;
use lines::Told;
use room::JobRoom;

// An answer as it is printed.
#[tactic(auto, unfolding(lines::specs::Written::told))]
fn told(answer: Result<Outcome, Refusal>) -> Result<Outcome, Told>
    ensures { result ≡ told answer }
{
    answer.map_err(Told::from)
}

// All that the program prints, at the front of `out`, which holds the longest answer; how many bytes it is. What is past them is untouched.
pub fn run(bytes: &[u8], failed: bool, out: &mut [u8; 256]) -> usize
    ensures { RunPromise failed bytes.now result out.old out.new }
{
    let mut room = JobRoom {
        query: [0; 512],
        hashes: [0; 2048],
        starts: [0; 2048],
        ends: [0; 2048],
        identities: [0.0; 513],
        uppers: [0.0; 513],
        identity_bits: [0; 513],
        upper_bits: [0; 513],
    };
    match room.read(bytes) {
        Err(refusal) => lines::say_refused(out, Told::from(refusal)),
        Ok(decoded) => {
            if failed {
                let reason = Reason::JobCut;
                let place = bytes.len() as u32;
                return lines::say_refused(out, Told::from(Refusal { reason, place }));
            }
            let job = room.job(decoded);
            let answer = told(answer_of(&job));
            lines::say(out, answer, job.identity_bits, job.upper_bits)
        }
    }
}
