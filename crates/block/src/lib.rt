// Blocks of sixteen bytes and numbers in bytes: what the modes above are made of.
// Where a function takes a place in a slice, its `requires` says how much of the slice has to lie there.
#![tactic(auto)]

ghost use Rattle.std.specs.Prelude.{◌≡◌, ◌++◌, ◌+◌, ◌/◌, ◌^◌, ◌≤◌, ◌<◌, length, take, drop};
ghost use Rattle.standards.specs.Strings.{◌xor◌, zeros, num, to_bytes};
ghost use Rattle.standards.specs.Rfc7253 as rfc;
ghost use Rattle.block.specs.Words.{le, le_bytes};
ghost use Rattle.block.specs.Halves.{block_of};

use sizes::Block;

// ---- Exclusive or

// a xor b.
pub fn xor(mut a: Block, b: Block) -> Block
    ensures { result ≡ a xor b }
{
    inplace_xor(&mut a, b);
    a
}

// Xors b's front into a, which may be shorter than a block.
pub fn inplace_xor(a: &mut [u8], b: Block)
    requires { length a.old ≤ 16 }
    ensures { a.new ≡ a.old xor b }
{
    for (i, x) in a.iter_mut().enumerate() {
        *x ^= b[i];
    }
}

// ---- RFC 7253's notation

// The count of trailing zero bits of i.
pub fn ntz(i: usize) -> usize
    requires { 0 < i }
    ensures { result ≡ rfc.ntz i }
{
    i.trailing_zeros() as usize
}

// The block shifted left by one bit, and 87 (hex) xored into its last byte if the bit that is lost was 1.
pub fn double(b: Block) -> Block
    ensures { result ≡ rfc.double b }
{
    Block::from(Halves::from(b).doubled())
}

// ---- Blocks in two words

// The high word is a block's first eight bytes, the low word its last eight.
#[derive(Clone, Copy)]
pub struct Halves {
    pub high: u64,
    pub low: u64,
}

impl From<Block> for Halves {
    ghost from_gives = { λ b x. block_of x ≡ b };

    fn from(b: Block) -> Halves {
        Halves {
            high: load_be64(&b, 0),
            low: load_be64(&b, 8),
        }
    }
}

impl From<Halves> for Block {
    ghost from_gives = { λ x b. b ≡ block_of x };

    fn from(x: Halves) -> Block {
        let mut b = [0u8; 16];
        store_be64(&mut b[..8], x.high);
        store_be64(&mut b[8..], x.low);
        b
    }
}

// The highest bit of a word.
fn top_bit(w: u64) -> u64
    ensures { result ≡ w / 2 ^ 63 }
{
    w >> 63
}

impl Halves {
    // The words of the doubled block. Both are shifted left by one bit; the high word takes the low word's top bit, and its own is lost: if
    // that was 1, 87 (hex) is xored into the low word.
    pub fn doubled(self) -> Halves
        ensures { block_of result ≡ rfc.double (block_of self) }
    {
        let carried = top_bit(self.low);
        let lost = top_bit(self.high);
        Halves {
            high: self.high << 1 | carried,
            low: self.low << 1 ^ lost * 0x87,
        }
    }
}

// ---- Blocks in a slice

// The N bytes of s from place at on.
fn bytes_at<const N: usize>(s: &[u8], at: usize) -> [u8; N]
    requires { at + N ≤ length s.now }
    ensures { result ≡ take N (drop at s.now) }
{
    let mut bytes = [0u8; N];
    bytes.copy_from_slice(&s[at..at + N]);
    bytes
}

// The sixteen bytes of s from place at on.
pub fn load(s: &[u8], at: usize) -> Block
    requires { at + 16 ≤ length s.now }
    ensures { result ≡ take 16 (drop at s.now) }
{
    bytes_at(s, at)
}

// Writes b over the sixteen bytes of s from place at on.
pub fn store(s: &mut [u8], at: usize, b: Block)
    requires { at + 16 ≤ length s.old }
    ensures { s.new ≡ take at s.old ++ (b ++ drop (at + 16) s.old) }
{
    copy_at(s, at, &b);
}

// ---- Numbers in a slice, the highest byte first

// The number that the eight bytes of s from place at on are.
pub fn load_be64(s: &[u8], at: usize) -> u64
    requires { at + 8 ≤ length s.now }
    ensures { result ≡ num (take 8 (drop at s.now)) }
{
    u64::from_be_bytes(bytes_at(s, at))
}

// Makes s, which has eight bytes, the bytes of n.
pub fn store_be64(s: &mut [u8], n: u64)
    requires { length s.old ≡ 8 }
    ensures { s.new ≡ to_bytes 8 n }
{
    s.copy_from_slice(&n.to_be_bytes());
}

// ---- Numbers in a slice, the lowest byte first

// The number that the four bytes of s from place at on are.
pub fn load_le32(s: &[u8], at: usize) -> usize
    requires { at + 4 ≤ length s.now }
    ensures { (result ≡ le (take 4 (drop at s.now))) × (result < 2 ^ 32) }
{
    u32::from_le_bytes(bytes_at(s, at)) as usize
}

// Writes the low 32 bits of n over the four bytes of s from place at on.
pub fn store_le32(s: &mut [u8], at: usize, n: usize)
    requires { at + 4 ≤ length s.old }
    ensures { s.new ≡ take at s.old ++ (le_bytes 4 n ++ drop (at + 4) s.old) }
{
    let low = (n % 0x100000000) as u32;
    copy_at(s, at, &low.to_le_bytes());
}

// ---- Copying and clearing

// Writes from over the front of to, as far as that goes.
pub fn copy(from: &[u8], to: &mut [u8])
    ensures { to.new ≡ take (length to.old) from.now ++ drop (length from.now) to.old }
{
    let n = from.len().min(to.len());
    to[..n].copy_from_slice(&from[..n]);
}

// Writes from over s, from place at on.
pub fn copy_at(s: &mut [u8], at: usize, from: &[u8])
    requires { at + length from.now ≤ length s.old }
    ensures { s.new ≡ take at s.old ++ (from.now ++ drop (at + length from.now) s.old) }
{
    s[at..at + from.len()].copy_from_slice(from);
}

// Makes every byte of s zero.
pub fn clear(s: &mut [u8])
    ensures { s.new ≡ zeros (length s.old) }
{
    s.fill(0);
}
