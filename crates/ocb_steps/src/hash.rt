// The steps of HASH: one block, the last part.
ghost use Rattle.std.specs.Prelude.{◌≡◌, ◌+◌, ◌<◌, length};
ghost use Rattle.standards.specs.Rfc7253.{hash_block, last_hash};
ghost use Rattle.ocb_numbers.specs.Numbers.{InTable};
ghost use Rattle.ocb_variables.specs.Held.{key_of};
ghost use Rattle.ocb_steps.specs.Steps.{after};

use crate::{Run, blocks};
use ocb_variables::LentKey;
use sizes::Block;

impl Run {
    // One block.
    pub fn hash_one(self, k: &LentKey<'_>, b: Block) -> Run
        requires { InTable k.now.m (self.done + 1) }
        ensures { result ≡ after (hash_block (key_of k.now)) (key_of k.now) b self }
    {
        // Offset_i = Offset_{i-1} xor L_{ntz(i)}
        let done = self.done + 1;
        let offset = blocks::next_offset(k.table, k.m, done, self.offset);
        // Sum_i = Sum_{i-1} xor ENCIPHER(K, A_i xor Offset_i)
        let sum = block::xor(self.sum, k.cipher.encipher(block::xor(b, offset)));
        Run { done, offset, sum }
    }

    // The last part, of 1 to 15 bytes, read where it lies.
    pub fn hash_last(self, k: &LentKey<'_>, part: &[u8]) -> Block
        requires { (0 < length part.now) × (length part.now < 16) }
        ensures { result ≡ last_hash (key_of k.now) self.offset self.sum part.now }
    {
        // Offset_* = Offset_m xor L_*
        let offset = block::xor(self.offset, k.star);
        // CipherInput = (A_* || 1 || zeros(127 - bitlen(A_*))) xor Offset_*, Sum = Sum_m xor ENCIPHER(K, CipherInput)
        let input = block::xor(blocks::pad(part), offset);
        block::xor(self.sum, k.cipher.encipher(input))
    }
}
