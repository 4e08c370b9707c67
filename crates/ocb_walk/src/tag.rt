// The tag: made, compared and written.
ghost use Rattle.std.specs.Prelude.{◌≡◌, ◌≤◌, length, take};
ghost use Rattle.standards.specs.Rfc7253.{Tag, same};
ghost use Rattle.ocb_numbers.specs.Numbers.{Fits};
ghost use Rattle.ocb_variables.specs.Held.{key_of};

use crate::hash;
use ocb_steps::Run;
use ocb_variables::LentKey;
use sizes::Block;

// Tag = ENCIPHER(K, Checksum xor Offset xor L_$) xor HASH(K, A), all sixteen bytes of it.
pub fn compute_tag(k: &LentKey<'_>, r: Run, ad: &[u8]) -> Block
    requires { Fits k.now.m (length ad.now) }
    ensures { result ≡ Tag (key_of k.now) r.sum r.offset ad.now }
{
    let input = block::xor(block::xor(r.sum, r.offset), k.dollar);
    block::xor(k.cipher.encipher(input), hash::hash(k, ad))
}

// Whether the bytes given are the front of the computed tag. Every byte given is looked at.
pub fn tags_equal(computed: Block, given: &[u8]) -> bool
    requires { length given.now ≤ 16 }
    ensures { result ≡ same (take (length given.now) computed) given.now }
{
    let mut difference = 0;
    for (i, byte) in given.iter().enumerate() {
        difference |= computed[i] ^ byte;
    }
    difference == 0
}

// Writes the front of the computed tag over the whole tag place.
pub fn write_tag(computed: Block, place: &mut [u8])
    requires { length place.old ≤ 16 }
    ensures { place.new ≡ take (length place.old) computed }
{
    let n = place.len();
    place.copy_from_slice(&computed[..n]);
}
