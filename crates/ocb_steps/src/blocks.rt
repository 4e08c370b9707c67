// What the walks are made of: the next offset; the padding of a last part.
ghost use Rattle.std.specs.Prelude.{◌≡◌, ◌<◌, length};
ghost use Rattle.standards.specs.Strings.{◌xor◌};
ghost use Rattle.standards.specs.Rfc7253.{ntz, block_at, padded};
ghost use Rattle.ocb_numbers.specs.Numbers.{InTable};

use sizes::{Block, Table};

// Offset_i = Offset_{i-1} xor L_{ntz(i)}
pub fn next_offset(table: &Table, m: usize, i: usize, o: Block) -> Block
    requires { InTable m i }
    ensures { result ≡ o xor block_at table.now (ntz i) }
{
    block::xor(o, block::load(table, block::ntz(i) * 16))
}

// P_* || 1 || zeros(127 - bitlen(P_*))
pub fn pad(p: &[u8]) -> Block
    requires { length p.now < 16 }
    ensures { result ≡ padded p.now }
{
    let mut r = [0u8; 16];
    block::copy(p, &mut r);
    r[p.len()] = 0x80;
    r
}
