// AES (FIPS 197) with keys of 16, 24 and 32 bytes. What crates above may use of encipher and decipher is their contracts and proofs/Promise.antt.
#![tactic(auto)]

mod blocks;
mod key;
mod rounds;

ghost use Rattle.std.specs.Prelude.{◌≡◌, length};
ghost use Rattle.sizes.specs.Sizes.{rounds_for, KeyLength, Rounds};
ghost use Rattle.aes.specs.Cipher.{enc, dec, EnciphersWith, DeciphersWith};
ghost use Rattle.aes.specs.Cipher.Body.{enciphers_fact, deciphers_fact};
ghost use Rattle.aes.specs.Schedule.{round_keys_of};

use blocks::{from_block, to_block};
use sizes::{Block, ROUND_KEY_BYTES, RoundKeys};

// ---- What the cipher works with: the crates above do not look into it. Each direction has a function of its own, since each promises its own tables.

pub type EncipherTables = [u8; 256];

pub type DecipherTables = [u8; 256];

pub fn encipher_tables() -> &'static EncipherTables
    ensures { EnciphersWith result.now }
{
    field::sbox()
}

pub fn decipher_tables() -> &'static DecipherTables
    ensures { DeciphersWith result.now }
{
    field::inv_sbox()
}

// ---- Key schedule

// Nr for a key of this many bytes.
pub fn rounds_for(key: usize) -> usize
    ensures { result ≡ rounds_for key }
{
    key / 4 + 6
}

// The round keys of a key, with zeros behind them.
pub fn expand_key(key: &[u8]) -> RoundKeys
    requires { KeyLength (length key.now) }
    ensures { result ≡ round_keys_of key.now }
{
    let words = 4 * (rounds_for(key.len()) + 1);
    let mut w = [0u8; ROUND_KEY_BYTES];
    key::expand(key, key.len() / 4, words, &mut w[..4 * words]);
    w
}

// ---- Cipher and inverse cipher

// The cipher under a key: the round keys that are lent, their number of rounds, and the tables of both directions.
#[derive(Clone, Copy)]
pub struct Cipher<'a> {
    forward: &'a EncipherTables,
    backward: &'a DecipherTables,
    pub round_keys: &'a RoundKeys,
    pub rounds: usize,
    ghost enciphers: { EnciphersWith forward.now } by { enciphers_fact forward.now },
    ghost deciphers: { DeciphersWith backward.now } by { deciphers_fact backward.now },
    ghost admitted: { Rounds rounds },
}

impl<'a> Cipher<'a> {
    pub fn new(round_keys: &'a RoundKeys, rounds: usize) -> Cipher<'a>
        requires { Rounds rounds }
        ensures keys { result.round_keys.now ≡ round_keys.now }
        ensures rounds { result.rounds ≡ rounds }
    {
        Cipher {
            forward: encipher_tables(),
            backward: decipher_tables(),
            round_keys,
            rounds,
        }
    }

    pub fn encipher(&self, b: Block) -> Block
        ensures { result ≡ enc self.now.rounds self.now.round_keys.now b }
    {
        let keys = self.round_keys;
        to_block(rounds::cipher(self.forward, keys, self.rounds, from_block(b)))
    }

    pub fn decipher(&self, b: Block) -> Block
        ensures { result ≡ dec self.now.rounds self.now.round_keys.now b }
    {
        let keys = self.round_keys;
        to_block(rounds::inv_cipher(self.backward, keys, self.rounds, from_block(b)))
    }
}
