// Every size and the types made of them, each by one name. specs/Sizes.antt has the same sizes for contracts and proofs.

// ---- AES (FIPS 197, section 5, table 3)

// The lengths of a key: 4, 6 or 8 words of four bytes.
pub const KEY_128: usize = 16;

pub const KEY_192: usize = 24;

pub const KEY_256: usize = 32;

// Nr, the rounds that go with each: one for each word, and six more.
pub const ROUNDS_128: usize = KEY_128 / 4 + 6;

pub const ROUNDS_192: usize = KEY_192 / 4 + 6;

pub const ROUNDS_256: usize = KEY_256 / 4 + 6;

// The place of the key schedule (5.2): sixteen bytes for each round of the longest key, and sixteen before the first.
pub const ROUND_KEY_BYTES: usize = 16 * (ROUNDS_256 + 1);

// What the cipher takes and gives (3.4), and RFC 7253's blocks of 128 bits.
pub type Block = [u8; 16];

pub type RoundKeys = [u8; ROUND_KEY_BYTES];

// ---- OCB3 (RFC 7253, section 4)

// The greatest m. A state of m serves texts and data of at most 2^m blocks: no block's number has more than m trailing zeros, so it keeps L_0 to L_m.
pub const M_MOST: usize = 26;

// The place of the L values: sixteen bytes for each of L_0 to L_26.
pub const TABLE_BYTES: usize = 16 * (M_MOST + 1);

pub type Table = [u8; TABLE_BYTES];

// The bytes of a nonce. The RFC takes from 1 on; the least is that of the crate ocb3.
pub const NONCE_LEAST: usize = 6;

pub const NONCE_MOST: usize = 15;

// The bytes of a tag: TAGLEN / 8.
pub const TAG_LEAST: usize = 1;

pub const TAG_MOST: usize = 16;
