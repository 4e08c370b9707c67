// Runs the published AES examples of FIPS 197 and NIST SP 800-38A through the crate aes, and prints for each list how many agree.
#![tactic(auto)]

mod hex; // hex.rt: bytes from hexadecimal text
mod vectors; // vectors.rt: the values

ghost use Rattle.sizes.specs.Sizes.{Rounds};

use aes::Cipher;
use sizes::{ROUND_KEY_BYTES, ROUNDS_128, RoundKeys};
use std::io;
use vectors::{Case, Key, Schedule};

// Of the longest schedule.
const WORDS: usize = ROUND_KEY_BYTES / 4;

#[derive(Clone, Copy)]
struct Expanded {
    keys: RoundKeys,
    rounds: usize,
}

// The round keys of a key; zeros where its length is none, so that nothing agrees.
fn expand(key: Key) -> Expanded
    ensures { Rounds result.rounds }
{
    let bytes = key.bytes;
    if ocb_numbers::refuse_set_up(key.length, 1).is_err() {
        return Expanded {
            keys: [0; ROUND_KEY_BYTES],
            rounds: ROUNDS_128,
        };
    }
    Expanded {
        keys: aes::expand_key(&bytes[..key.length]),
        rounds: aes::rounds_for(key.length),
    }
}

// One function each way: with the direction as a parameter, plaintext and ciphertext would have to change places too.
fn enciphers(c: Case) -> bool {
    let expanded = expand(c.key);
    let made = Cipher::new(&expanded.keys, expanded.rounds).encipher(c.plain);
    made == c.cipher
}

fn deciphers(c: Case) -> bool {
    let expanded = expand(c.key);
    let made = Cipher::new(&expanded.keys, expanded.rounds).decipher(c.cipher);
    made == c.plain
}

// Prints how many of a list agree, and which is the first that does not, counted from 1.
fn report(rt: &impl Print, name: &str, good: &[bool]) -> io::Result<()> {
    let right = good.iter().filter(|agrees| **agrees).count();
    print!(rt; "{name}: {right} of {} agree", good.len())?;
    if let Some(wrong) = good.iter().position(|agrees| !*agrees) {
        print!(rt; "; the first that does not is number {}", wrong + 1)?;
    }
    println!(rt)
}

// For each word, whether it is as published, or zero behind a shorter schedule.
fn same_words(made: RoundKeys, published: RoundKeys) -> [bool; WORDS] {
    let (made, _) = made.as_chunks::<4>();
    let (published, _) = published.as_chunks::<4>();
    let mut good = [false; WORDS];
    for (good, (made, published)) in good.iter_mut().zip(made.iter().zip(published)) {
        *good = made == published;
    }
    good
}

fn words(rt: &impl Print, name: &str, published: Schedule) -> io::Result<()> {
    let expanded = expand(published.key);
    let good = same_words(expanded.keys, published.words);
    report(rt, name, &good)
}

fn both_ways(rt: &impl Print, there: &str, back: &str, cases: [Case; 4]) -> io::Result<()> {
    report(rt, there, &cases.map(enciphers))?;
    report(rt, back, &cases.map(deciphers))
}

fn main(rt: HostRuntime) -> io::Result<()> {
    for (name, published) in [
        (
            "FIPS 197, A.1, words of the key schedule, and zeros behind",
            vectors::fips_197_a_1(),
        ),
        (
            "FIPS 197, A.2, words of the key schedule, and zeros behind",
            vectors::fips_197_a_2(),
        ),
        (
            "FIPS 197, A.3, words of the key schedule, and zeros behind",
            vectors::fips_197_a_3(),
        ),
    ] {
        words(&rt, name, published)?;
    }
    for (there, back, cases) in [
        (
            "FIPS 197, B and C.1 to C.3, enciphered",
            "FIPS 197, B and C.1 to C.3, deciphered",
            vectors::fips_197_b_c(),
        ),
        (
            "NIST SP 800-38A, F.1.1, enciphered",
            "NIST SP 800-38A, F.1.2, deciphered",
            vectors::sp_800_38a_128(),
        ),
        (
            "NIST SP 800-38A, F.1.3, enciphered",
            "NIST SP 800-38A, F.1.4, deciphered",
            vectors::sp_800_38a_192(),
        ),
        (
            "NIST SP 800-38A, F.1.5, enciphered",
            "NIST SP 800-38A, F.1.6, deciphered",
            vectors::sp_800_38a_256(),
        ),
    ] {
        both_ways(&rt, there, back, cases)?;
    }
    Ok(())
}
