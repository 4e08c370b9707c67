// RFC 7253, appendix A: the test over a wider range. 384 seals of 0 to 127 zero bytes, and one with all their results as associated data.
ghost use Rattle.std.specs.Prelude.{◌≤◌};

use ocb_variables::State;
use std::io;
use std::io::{Cursor, Write};

// n in twelve bytes, the highest first.
fn nonce(n: u16) -> [u8; 12] {
    let [high, low] = n.to_be_bytes();
    [0, 0, 0, 0, 0, 0, 0, 0, 0, 0, high, low]
}

// Seals so many zeros, at most 128, under nonce n, and writes what comes of them and the tag.
fn seal_next(
    s: State,
    n: u16,
    ad: &[u8],
    text: usize,
    tag: &mut [u8],
    results: &mut impl Write,
) -> io::Result<()>
    requires { text ≤ 128 }
{
    let mut zeros = [0u8; 128];
    let text = &mut zeros[..text];
    ocb::seal(s, &nonce(n), ad, text, tag);
    results.write_all(text)?;
    results.write_all(tag)
}

// All but the last seal.
fn seal_all(s: State, tag: &mut [u8], results: &mut impl Write) -> io::Result<()> {
    let zeros = [0u8; 128];
    for i in 0..128u16 {
        let k = i as usize;
        seal_next(s, 3 * i + 1, &zeros[..k], k, tag, results)?;
        seal_next(s, 3 * i + 2, &[], k, tag, results)?;
        seal_next(s, 3 * i + 3, &zeros[..k], 0, tag, results)?;
    }
    Ok(())
}

// Runs the whole test with a key as long as the one lent, which is zero, and tags as long as the place lent, of at most 16 bytes. Leaves there the tag
// of the last seal, which has no text.
pub fn run(key: &mut [u8], tag: &mut [u8]) {
    let t = tag.len();
    if 16 < t {
        return;
    }
    let Some(last) = key.last_mut() else {
        return;
    };
    *last = (8 * t) as u8;
    let s = ocb::set_up(key, 11).state;
    let mut results = [0u8; 22400];
    let mut written = Cursor::new(&mut results[..]);
    // 22,400 bytes are what tags of 16 bytes need, so no write fails
    let Ok(()) = seal_all(s, tag, &mut written) else {
        return;
    };
    let n = written.position() as usize;
    if let Some(results) = results.get(..n) {
        ocb::seal(s, &nonce(385), results, &mut [], tag);
    }
}
