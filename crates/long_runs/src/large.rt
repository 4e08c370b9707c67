// One text of 2^20 + 5 bytes with as many bytes of associated data, sealed, opened, and opened with a wrong tag. Its block 2^16 is the first to use L_16, which
// needs m = 17. Text and data follow a rule. The text that is left is told by two sums over all its bytes.
ghost use Rattle.std.specs.Prelude.{◌≡◌, length};

use crate::hex::Hex;
use ocb::Answer;
use ocb_variables::State;
use std::io;

// Byte i becomes (7 * i + i / 256 + first) mod 256.
fn fill(s: &mut [u8], first: u8) {
    for (i, byte) in s.iter_mut().enumerate() {
        *byte = ((i % 256 * 7 + i / 256 + first as usize) % 256) as u8;
    }
}

// The bytes, each with 1 added to it, as the digits of a number in base 257 and in base 65,537, modulo the prime 2^32 - 5. Texts that differ in one byte differ
// in both.
fn sums(s: &[u8]) -> (u64, u64) {
    let mut first: u64 = 0;
    let mut second: u64 = 0;
    for byte in s {
        let digit = *byte as u64 + 1;
        first = (first * 257 + digit) % 4294967291;
        second = (second * 65537 + digit) % 4294967291;
    }
    (first, second)
}

fn tell(rt: &impl Print, what: &str, a: Answer, text: &[u8], tag: &[u8]) -> io::Result<()> {
    let (first, second) = sums(text);
    println!(rt;
        "2^20 + 5 bytes, {what}: answer {} calls {}, tag {}, sums of the text {first:08x} {second:08x}",
        a.number,
        a.calls,
        Hex(tag)
    )
}

fn open(
    rt: &impl Print,
    what: &str,
    s: State,
    data: &[u8],
    text: &mut [u8],
    tag: &[u8],
) -> io::Result<()> {
    let a = ocb::open(s, b"twelve bytes", data, text, tag);
    tell(rt, what, a, text, tag)
}

// Seals the text, opens it, and opens what is left with a wrong tag.
fn seal_and_open(rt: &impl Print, text: &mut [u8], data: &[u8]) -> io::Result<()> {
    let s = ocb::set_up(b"sixteen key byte", 17).state;
    let mut tag = [0u8; 16];
    let a = ocb::seal(s, b"twelve bytes", data, text, &mut tag);
    tell(rt, "sealed", a, text, &tag)?;
    open(rt, "opened", s, data, text, &tag)?;
    tag[15] ^= 1;
    open(rt, "opened with a wrong tag", s, data, text, &tag)
}

// So many zeros: a function of its own, since a check of more than their length is long.
fn zeros() -> [u8; 1048581]
    ensures { 1048581 ≡ length result }
{
    [0; 1048581]
}

pub fn run(rt: &impl Print) -> io::Result<()> {
    let mut text = zeros();
    fill(&mut text, 0);
    let mut data = zeros();
    fill(&mut data, 100);
    seal_and_open(rt, &mut text, &data)
}
