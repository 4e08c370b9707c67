// The steps of a round (FIPS 197, 5.1) on the state, four columns of four bytes, which goes through each by value.
#![tactic(auto)]

pub mod inverse; // inverse.rt: the inverse steps
mod matrix; // matrix.rt: what MixColumns and its inverse share

ghost use Rattle.std.specs.Prelude.{◌≡◌, ◌+◌, ◌*◌, ◌<◌, length};
ghost use Rattle.standards.specs.Fips197.{columns, each_byte, sub_bytes, shift_rows, row, mix_columns, word, add_column, add_state, round_key, add_round_key};
ghost use Rattle.aes_steps.specs.LookUp.{look_up};
ghost use Rattle.field.specs.Tables.{sbox_table};

use matrix::{Matrix, mixed};
use std::array;

// Each byte of a column, looked up in the table.
#[tactic(auto, unfolding(crate::specs::LookUp::look_up))]
pub fn substitute(table: &[u8; 256], a: [u8; 4]) -> [u8; 4]
    ensures { result ≡ each_byte (look_up table.now) a }
{
    a.map(|b| table[b as usize])
}

pub fn substitute_all(table: &[u8; 256], s: [[u8; 4]; 4]) -> [[u8; 4]; 4]
    ensures { result ≡ columns (each_byte (look_up table.now)) s }
{
    let [a, b, c, d] = s;
    [
        substitute(table, a),
        substitute(table, b),
        substitute(table, c),
        substitute(table, d),
    ]
}

// What it does is substitute_all, as inv_sub_bytes; each promises its own table's values.
pub fn sub_bytes(sbox: &[u8; 256], s: [[u8; 4]; 4]) -> [[u8; 4]; 4]
    requires { sbox.now ≡ sbox_table }
    ensures { result ≡ sub_bytes s }
{
    substitute_all(sbox, s)
}

// Row r goes r places to the left. A literal, as its inverse is one: with places computed they would be one function and no plainer.
pub fn shift_rows(s: [[u8; 4]; 4]) -> [[u8; 4]; 4]
    ensures { result ≡ shift_rows s }
{
    let [a, b, c, d] = s;
    [
        [a[0], b[1], c[2], d[3]],
        [b[0], c[1], d[2], a[3]],
        [c[0], d[1], a[2], b[3]],
        [d[0], a[1], b[2], c[3]],
    ]
}

struct MixColumns;

impl Matrix for MixColumns {
    ghost first_row = { row 0x02 0x03 0x01 0x01 };

    fn first_row(a: u8, b: u8, c: u8, d: u8) -> u8 {
        field::double(a) ^ field::double(b) ^ b ^ c ^ d
    }
}

pub fn mix_columns(s: [[u8; 4]; 4]) -> [[u8; 4]; 4]
    ensures { result ≡ mix_columns s }
{
    mixed::<MixColumns>(s)
}

// Word j of the key schedule.
pub fn key_word(w: &[u8], j: usize) -> [u8; 4]
    requires { 4 * j + 3 < length w.now }
    ensures { result ≡ word w.now j }
{
    array::from_fn(|r| w[4 * j + r])
}

pub fn add_column(a: [u8; 4], k: [u8; 4]) -> [u8; 4]
    ensures { result ≡ add_column a k }
{
    [a[0] ^ k[0], a[1] ^ k[1], a[2] ^ k[2], a[3] ^ k[3]]
}

fn add_state(s: [[u8; 4]; 4], k: [[u8; 4]; 4]) -> [[u8; 4]; 4]
    ensures { result ≡ add_state s k }
{
    [
        add_column(s[0], k[0]),
        add_column(s[1], k[1]),
        add_column(s[2], k[2]),
        add_column(s[3], k[3]),
    ]
}

// The round key of round i: four words. Here, in add_state and in substitute_all the four columns are spelled out: by map or from_fn the closures' own goals
// stayed open. That w reaches so far stands in each clause, as a fact of w and i together.
fn round_key(w: &[u8], i: usize) -> [[u8; 4]; 4]
    requires { 16 * i + 15 < length w.now }
    ensures { result ≡ round_key w.now i }
{
    let j = 4 * i;
    [
        key_word(w, j),
        key_word(w, j + 1),
        key_word(w, j + 2),
        key_word(w, j + 3),
    ]
}

// AddRoundKey, which is its own inverse.
pub fn add_round_key(s: [[u8; 4]; 4], w: &[u8], i: usize) -> [[u8; 4]; 4]
    requires { 16 * i + 15 < length w.now }
    ensures { result ≡ add_round_key w.now i s }
{
    add_state(s, round_key(w, i))
}
