// Replays the stored vectors through the outward calls and the stored jobs through `run`, and prints for each file how many records ran and how many failed.
#![tactic(auto)]

use records::{Fault, Record, file};
use std::fs::File;
use std::io;
use std::io::Read;
use std::rt::Files;

// Replays the next record of a file.
fn one<R: Read, F: Fn(Record<'_>) -> Result<(), Fault>>(
    reader: &mut R,
    call: &F,
) -> Result<(), Fault>
    requires { F.IsAlwaysCallable call.now }
{
    let mut room = [0u64; file::LONGEST];
    call(file::next(reader, &mut room)?)
}

// How many of the next records fail, or are not there; as many as 2^32 begin again at 0.
fn failures<R: Read, F: Fn(Record<'_>) -> Result<(), Fault>>(
    reader: &mut R,
    records: u64,
    call: &F,
) -> u64
    requires { F.IsAlwaysCallable call.now }
{
    let count = |failed: u64, _k|
        requires { F.IsAlwaysCallable call.now }
    { failed % (1 << 32) + u64::from(one(reader, call).is_err()) };
    (0..records).fold(0, count)
}

// Replays a file by the call that it is about.
fn replay<R: Files + Print + Eprint, F: Fn(Record<'_>) -> Result<(), Fault>>(
    rt: &R,
    path: &str,
    name: &str,
    call: F,
) -> io::Result<()>
    requires { F.IsAlwaysCallable call }
{
    let mut reader = match File::open(rt, path) {
        Ok(opened) => opened,
        Err(error) => return eprintln!(rt; "{path}: {error}"),
    };
    match file::count(&mut reader) {
        Ok(records) => {
            let failed = failures(&mut reader, records, &call);
            println!(rt; "{name} {records} run {failed} failed")
        }
        Err(_) => eprintln!(rt; "{path}: too short"),
    }
}

fn main(rt: HostRuntime) -> io::Result<()> {
    replay(&rt, "script.bin", "script", replay_script::replay)?;
    replay(&rt, "minimizer.bin", "minimizer", replay_sweeps::minimizers)?;
    replay(&rt, "interval.bin", "interval", replay_sweeps::intervals)?;
    replay(
        &rt,
        "minimizer_finder.bin",
        "minimizer_finder",
        replay_finders::minimizers,
    )?;
    replay(
        &rt,
        "interval_finder.bin",
        "interval_finder",
        replay_finders::intervals,
    )?;
    replay(&rt, "jobs.bin", "jobs", replay_jobs::replay)
}
