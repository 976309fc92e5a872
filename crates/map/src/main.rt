// The mapping program: reads a job from standard input, to its end or to one byte more than a job may have, and prints what `run` says of it. Nothing else is printed.
#![tactic(auto)]

ghost use Rattle.std.specs.Prelude.{◌≤◌, length};

use std::io::{Read, Write};

// The bytes that were read, and whether a read failed behind them: a failed read is no end of the job. There are bytes either way, and `run` is
// told both.
#[derive(Clone, Copy)]
struct Input<'a> {
    bytes: &'a [u8],
    failed: bool,
}

// Reads until the input ends, a read fails, or the room is full. Each turn reads a byte or more or is the last, so there are never more turns than bytes.
fn read_all<'a, R: Read>(reader: &mut R, room: &'a mut [u8]) -> Input<'a>
    ensures { length result.bytes.now ≤ length room.old }
{
    let mut count = 0;
    let mut failed = false;
    for _ in 0..room.len() {
        if count == room.len() {
            break;
        }
        match reader.read(&mut room[count..]) {
            Ok(0) => break,
            Ok(more) => count += more,
            Err(_) => {
                failed = true;
                break;
            }
        }
    }
    Input {
        bytes: &room[..count],
        failed,
    }
}

// Prints all that is said of them.
fn answer<W: Write>(writer: &mut W, input: Input<'_>) {
    let mut out = [0u8; 256];
    let count = run::run(input.bytes, input.failed, &mut out);
    let _ = writer.write_all(&out[..count]);
}

fn main(rt: HostRuntime) {
    let mut room = [0u8; 65536];
    let input = read_all(&mut rt.stdin(), &mut room);
    answer(&mut rt.stdout(), input);
}

#[cfg(test)]
mod tests {
    use super::*;
    use std::io;
    use std::io::ErrorKind;

    // Gives some bytes, and then fails.
    #[derive(Drop)]
    struct Failing<'a>(&'a [u8]);

    impl<'a> Read for Failing<'a> {
        fn read(&mut self, buf: &mut [u8]) -> io::Result<usize> {
            if self.0.is_empty() {
                return Err(io::Error::from(ErrorKind::Other));
            }
            self.0.read(buf)
        }
    }

    // What is printed of what a reader gives.
    fn printed<R: Read>(rt: &HostRuntime, reader: &mut R) -> Vec<u8> {
        let mut out = Vec::new(rt.alloc());
        let mut room = [0u8; 65536];
        let input = read_all(reader, &mut room);
        answer(&mut out, input);
        out
    }

    const JOB: [u8; 167] = [
        1, 1, 0, 1, 2, 1, 0, 0, 3, 20, 0, 3, 0, 0, 0, 2, 0, 0, 0, 10, 0, 0, 0, 0, 0, 0, 0, 11, 0,
        0, 0, 5, 16, 0, 20, 0, 0, 0, 0, 0, 0, 0, 40, 0, 0, 0, 0, 0, 0, 0, 6, 60, 0, 20, 0, 0, 0, 0,
        0, 0, 0, 0, 0, 0, 0, 30, 0, 0, 0, 0, 0, 0, 0, 4, 0, 0, 0, 40, 0, 0, 0, 0, 0, 0, 0, 8, 0, 0,
        0, 20, 0, 0, 0, 0, 0, 0, 0, 12, 0, 0, 0, 50, 0, 0, 0, 0, 0, 0, 0, 20, 0, 0, 0, 7, 48, 0, 0,
        0, 0, 0, 0, 0, 0, 0, 0, 0, 0, 0, 0, 0, 0, 0, 0, 0, 0, 0, 0, 0, 73, 64, 0, 0, 0, 0, 0, 0,
        73, 64, 0, 0, 0, 0, 0, 0, 89, 64, 0, 0, 0, 0, 0, 0, 89, 64, 255, 0, 0,
    ];

    #[test]
    fn tells_a_failed_read_from_the_end(rt: HostRuntime) {
        let mapped = b"mapped 8 17 2 2\nidentity 4059000000000000 4059000000000000\ncounts 5 4 5\n";
        let whole = printed(&rt, &mut &JOB[..]);
        assert!(rt; whole.as_slice() == &mapped[..], "the whole job");
        let failed = printed(&rt, &mut Failing(&JOB));
        assert!(rt;
            failed.as_slice() == &b"refused 12 167\n"[..],
            "a read that fails behind it"
        );
        let cut = printed(&rt, &mut Failing(&JOB[..100]));
        assert!(rt;
            cut.as_slice() == &b"refused 12 50\n"[..],
            "a read that fails within it"
        );
        let none = printed(&rt, &mut Failing(&JOB[..0]));
        assert!(rt;
            none.as_slice() == &b"refused 12 0\n"[..],
            "a read that fails at once"
        );
    }
}
