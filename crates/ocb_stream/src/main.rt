// Answers a stream of cases from standard input until its end: a length of four bytes, the lowest first, and a case of so many bytes; for each it writes
// a length and what the test program writes. A stream that ends inside a case ends the answers.
#![tactic(auto)]

ghost use Rattle.std.specs.Io.{ReadsAtMost};

use std::io::{Read, Result, Write};

// Reads until buffer is full or the stream ends, and gives how many bytes it put at the front, which std's `read_exact` does not say. The loop counts bytes
// that came, which is no index.
fn read_full(from: &mut impl Read, buffer: &mut [u8]) -> Result<usize>
    ensures { ReadsAtMost result buffer.new }
{
    let mut done = 0;
    while done < buffer.len() {
        let n = from.read(&mut buffer[done..])?;
        if n == 0 {
            break;
        }
        done += n;
    }
    Ok(done)
}

// Reads left bytes and drops them, by way of a buffer. An end behind some bytes is asked once more, since a terminal's input may go on behind it.
fn skip(from: &mut impl Read, mut left: usize, buffer: &mut [u8]) -> Result<()> {
    while left > 0 {
        let n = left.min(buffer.len());
        let got = read_full(from, &mut buffer[..n])?;
        if got == 0 {
            break;
        }
        left -= got;
    }
    Ok(())
}

// Answers the next case, and says whether there was one. A case that is longer than the buffer is longer than any good one, so its front is answered.
fn answer_next(
    from: &mut impl Read,
    to: &mut impl Write,
    case: &mut [u8],
    out: &mut [u8],
) -> Result<bool> {
    let mut head = [0u8; 4];
    if read_full(from, &mut head)? < head.len() {
        return Ok(false);
    }
    let length = u32::from_le_bytes(head) as usize;
    let n = length.min(case.len());
    if read_full(from, &mut case[..n])? < n {
        return Ok(false);
    }
    let k = cases::respond(&case[..n], out);
    skip(from, length - n, case)?;
    to.write_all(&k.to_le_bytes()[..4])?;
    to.write_all(&out[..k])?;
    Ok(true)
}

// A proved loop has to end, and nothing says that a stream does. So the loop counts its turns, up to a number that no run reaches.
fn main(rt: HostRuntime) -> Result<()> {
    let mut case = [0u8; 65536];
    let mut out = [0u8; 65536];
    let mut from = rt.stdin();
    let mut to = rt.stdout();
    for _ in 0..u64::MAX {
        if !answer_next(&mut from, &mut to, &mut case, &mut out)? {
            break;
        }
    }
    Ok(())
}
