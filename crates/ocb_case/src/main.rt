// The test program: reads one case from standard input and writes what is said of it. The buffer holds more than the longest case has, so a case with
// too many bytes is seen to have them.
#![tactic(auto)]

ghost use Rattle.std.specs.Io.{ReadsAtMost};

use std::io::{Read, Result, Write};

// Reads until buffer is full or the input ends, and gives how many bytes it put at the front. Of std's methods `read_exact` does not say how many came, and
// `read_to_end` needs a heap.
fn read_full(from: &mut impl Read, buffer: &mut [u8]) -> Result<usize>
    ensures { ReadsAtMost result buffer.new }
{
    let mut done = 0;
    while done < buffer.len() {
        let n = from.read(&mut buffer[done..])?;
        if n == 0 {
            break;
        }
        done += n;
    }
    Ok(done)
}

fn main(rt: HostRuntime) -> Result<()> {
    let mut from = rt.stdin();
    let mut case = [0u8; 65536];
    let n = read_full(&mut from, &mut case)?;
    let mut out = [0u8; 65536];
    let k = cases::respond(&case[..n], &mut out);
    rt.stdout().write_all(&out[..k])
}
