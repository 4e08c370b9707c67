// HASH of the associated data, from a zero offset.
ghost use Rattle.std.specs.Prelude.{◌≡◌, length};
ghost use Rattle.standards.specs.Rfc7253.{HASH};
ghost use Rattle.ocb_numbers.specs.Numbers.{Fits};
ghost use Rattle.ocb_variables.specs.Held.{key_of};

use ocb_steps::Run;
use ocb_variables::LentKey;
use sizes::Block;

pub fn hash(k: &LentKey<'_>, ad: &[u8]) -> Block
    requires { Fits k.now.m (length ad.now) }
    ensures { result ≡ HASH (key_of k.now) ad.now }
{
    let blocks = ad.chunks_exact(16);
    let part = blocks.remainder();
    let mut r = Run::start([0; 16]);
    for block in blocks {
        r = r.hash_one(k, block::load(block, 0));
    }
    if part.is_empty() {
        return r.sum;
    }
    r.hash_last(k, part)
}
