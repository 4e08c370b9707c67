// Runs RFC 7253's iterated tests and a text of 2^20 + 5 bytes, and prints what they end in. The file `stdout` has what is owed: the values that RFC 7253 publishes,
// and what the crate ocb3 and OpenSSL give for the long text. `compare/make-lists` writes it.
#![tactic(auto)]

mod hex; // hex.rt: bytes in hex
mod iterated; // iterated.rt: RFC 7253, appendix A, the test over a wider range
mod large; // large.rt: a text of 2^20 + 5 bytes

use hex::Hex;
use std::io;

// Runs the iterated test with tags as long as the place lent, and prints the tag that it ends in.
fn iterate(rt: &impl Print, key: &mut [u8], tag: &mut [u8]) -> io::Result<()> {
    iterated::run(key, tag);
    println!(rt;
        "RFC 7253, iterated test, key of {} bytes, tag of {} bytes: {}",
        key.len(),
        tag.len(),
        Hex(tag)
    )
}

// With the three lengths of a tag that RFC 7253 has under a key.
fn iterate_tags(rt: &impl Print, key: &mut [u8]) -> io::Result<()> {
    iterate(rt, key, &mut [0u8; 16])?;
    iterate(rt, key, &mut [0u8; 12])?;
    iterate(rt, key, &mut [0u8; 8])
}

fn main(rt: HostRuntime) -> io::Result<()> {
    iterate_tags(&rt, &mut [0u8; 16])?;
    iterate_tags(&rt, &mut [0u8; 24])?;
    iterate_tags(&rt, &mut [0u8; 32])?;
    large::run(&rt)
}
