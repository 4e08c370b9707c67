// What depends on the key and what depends on the nonce (RFC 7253, sections 4.1 and 4.2): the L values, the nonce block, Stretch and
// the first offset. t is a tag's length in bytes.
#![tactic(auto)]

ghost use Rattle.std.specs.Prelude.{◌≡◌, ◌≤◌, ◌<◌, length};
ghost use Rattle.sizes.specs.Sizes.{Rounds, m_most};
ghost use Rattle.standards.specs.InBytes.{nonce_block, stretch_of, cut_of, initial_offset};
ghost use Rattle.aes.specs.Cipher.{enc};
ghost use Rattle.ocb_variables.specs.Held.{held, key_of};
ghost use Rattle.ocb_variables.specs.State.{table_of, state_of};
ghost use Rattle.ocb_variables.specs.Nonce.{Admitted, variables_of, bits_from};

use aes::Cipher;
use block::Halves;
use sizes::{Block, RoundKeys, TABLE_BYTES, Table};

// ---- Key-dependent variables

// The number of rounds, L_*, L_$, and m: the table is filled to L_m.
#[derive(Clone, Copy)]
pub struct KeyValues {
    pub rounds: usize,
    pub star: Block,
    pub dollar: Block,
    pub m: usize,
}

// What a key is made into. Block i of the table is L_i up to L_m; the others are zero.
#[derive(Clone, Copy)]
pub struct State {
    pub round_keys: RoundKeys,
    pub values: KeyValues,
    pub table: Table,
}

// The key that a state holds, lent to the walks: its cipher, its table of L_0 to L_m, L_*, L_$, and m.
#[derive(Clone, Copy)]
pub struct LentKey<'a> {
    pub cipher: Cipher<'a>,
    pub table: &'a Table,
    pub star: Block,
    pub dollar: Block,
    pub m: usize,
}

impl State {
    pub fn lend(&self) -> LentKey<'_>
        requires { Rounds self.now.values.rounds }
        ensures key { key_of result ≡ held self.now }
        ensures m { result.m ≡ self.now.values.m }
    {
        LentKey {
            cipher: Cipher::new(&self.round_keys, self.values.rounds),
            table: &self.table,
            star: self.values.star,
            dollar: self.values.dollar,
            m: self.values.m,
        }
    }
}

// The table of L_0 to L_m: each L is the double of the one before, and L_0 that of L_$. They are doubled as words and become bytes in the
// table only.
fn l_table(dollar: Block, m: usize) -> Table
    requires { m ≤ m_most }
    ensures { result ≡ table_of dollar m }
{
    let mut table = [0u8; TABLE_BYTES];
    let mut l = Halves::from(dollar);
    for i in 0..m + 1 {
        l = l.doubled();
        block::store(&mut table, i * 16, Block::from(l));
    }
    table
}

// The state of these round keys. L_* is the zero block enciphered, L_$ its double.
pub fn key_dependent_variables(round_keys: RoundKeys, rounds: usize, m: usize) -> State
    requires { (Rounds rounds) × (m ≤ m_most) }
    ensures { result ≡ state_of round_keys rounds m }
{
    let star = Cipher::new(&round_keys, rounds).encipher([0; 16]);
    let dollar = block::double(star);
    let table = l_table(dollar, m);
    State {
        round_keys,
        values: KeyValues {
            rounds,
            star,
            dollar,
            m,
        },
        table,
    }
}

// ---- Nonce-dependent variables. A nonce and a tag's length go together through three functions: a type for them would be made of just these two, with just
// their clause, by the one caller.

// Seven bits of the tag's length in bits mod 128, zeros, one 1 bit, and the nonce.
fn nonce_block(nonce: &[u8], t: usize) -> Block
    requires { Admitted (length nonce.now) t }
    ensures { result ≡ nonce_block t nonce.now }
{
    let len = nonce.len();
    let mut out = [0u8; 16];
    out[0] = (8 * t % 128 * 2) as u8;
    block::copy_at(&mut out, 16 - len, nonce);
    out[15 - len] |= 1;
    out
}

// Ktop, then each of its bytes 0 to 7 xored with its right neighbour, as both stand in Ktop.
fn stretch_of(ktop: Block) -> [u8; 24]
    ensures { result ≡ stretch_of ktop }
{
    let mut stretch = [0u8; 24];
    block::store(&mut stretch, 0, ktop);
    for j in 0..8 {
        stretch[16 + j] = ktop[j] ^ ktop[j + 1];
    }
    stretch
}

#[derive(Clone, Copy)]
pub struct NonceVariables {
    pub bottom: usize,
    pub stretch: [u8; 24],
}

// Bottom is the low six bits of the nonce block; Ktop is the block with those bits cleared, enciphered.
pub fn nonce_dependent_variables(cipher: &Cipher<'_>, nonce: &[u8], t: usize) -> NonceVariables
    requires { Admitted (length nonce.now) t }
    ensures { result ≡ variables_of (enc cipher.now.rounds cipher.now.round_keys.now) t nonce.now }
{
    let mut top = nonce_block(nonce, t);
    let bottom = (top[15] & 63) as usize;
    top[15] &= 192;
    let stretch = stretch_of(cipher.encipher(top));
    NonceVariables { bottom, stretch }
}

// ---- The first offset

// The 64 bits behind the first `bottom` of hi and lo. Bottom 0 stands apart: it would ask for a shift by 64, which a word does not have.
fn bits_from(hi: u64, lo: u64, bottom: usize) -> u64
    requires { bottom < 64 }
    ensures { result ≡ bits_from hi lo bottom }
{
    if bottom == 0 {
        return hi;
    }
    (hi << bottom) | (lo >> (64 - bottom))
}

// The 128 bits behind the first `bottom` of Stretch.
fn cut(stretch: [u8; 24], bottom: usize) -> Block
    requires { bottom < 64 }
    ensures { result ≡ cut_of stretch bottom }
{
    let a = block::load_be64(&stretch, 0);
    let b = block::load_be64(&stretch, 8);
    let c = block::load_be64(&stretch, 16);
    Block::from(Halves {
        high: bits_from(a, b, bottom),
        low: bits_from(b, c, bottom),
    })
}

// Offset_0. Of a key it takes the cipher alone.
pub fn initial_offset(cipher: &Cipher<'_>, nonce: &[u8], t: usize) -> Block
    requires { Admitted (length nonce.now) t }
    ensures { result ≡ initial_offset (enc cipher.now.rounds cipher.now.round_keys.now) t nonce.now }
{
    let v = nonce_dependent_variables(cipher, nonce, t);
    cut(v.stretch, v.bottom)
}
