// The steps of a text, in place: two blocks, one block, the last part. The checksum takes the plaintext, which is what stood there before where a text is
// sealed and what stands there afterwards where it is opened.
ghost use Rattle.std.specs.Prelude.{◌≡◌, ◌+◌, ◌<◌, length};
ghost use Rattle.ocb_numbers.specs.Numbers.{InTable};
ghost use Rattle.ocb_variables.specs.Held.{key_of};
ghost use Rattle.ocb_steps.specs.Steps.{One, Two, Last, last_plain};

use crate::way::Way;
use crate::{Run, blocks};
use ocb_variables::LentKey;

impl Run {
    // Two blocks where they lie.
    pub fn pair<W: Way>(self, k: &LentKey<'_>, pair: &mut [u8]) -> Run
        requires { (InTable k.now.m (self.done + 1 + 1)) × (length pair.old ≡ 32) }
        ensures { Two W.opens (key_of k.now) pair.old self pair.new result }
    {
        let (first, second) = pair.split_at_mut(16);
        self.one::<W>(k, first).one::<W>(k, second)
    }

    // One block where it lies. The attribute saves two calls in each pair: a hundred instructions of some five thousand.
    #[inline(always)]
    pub fn one<W: Way>(self, k: &LentKey<'_>, one: &mut [u8]) -> Run
        requires { (InTable k.now.m (self.done + 1)) × (length one.old ≡ 16) }
        ensures { One W.opens (key_of k.now) one.old self one.new result }
    {
        let b = block::load(one, 0);
        // Offset_i = Offset_{i-1} xor L_{ntz(i)}
        let done = self.done + 1;
        let offset = blocks::next_offset(k.table, k.m, done, self.offset);
        let t = W::turn(k, offset, b);
        // Checksum_i = Checksum_{i-1} xor P_i
        let sum = block::xor(self.sum, W::plain(b, t));
        block::store(one, 0, t);
        Run { done, offset, sum }
    }

    // The last part, of fewer than 16 bytes, where it lies. Its pad comes from the cipher's forward direction, whichever way the text goes.
    pub fn last<W: Way>(self, k: &LentKey<'_>, part: &mut [u8]) -> Run
        requires { length part.old < 16 }
        ensures { Last (key_of k.now) (last_plain W.opens (key_of k.now) self.offset part.old) part.old self part.new result }
    {
        let before = blocks::pad(part);
        // Offset_* = Offset_m xor L_*
        let offset = block::xor(self.offset, k.star);
        // C_* = P_* xor Pad[1..bitlen(P_*)], P_* = C_* xor Pad[1..bitlen(C_*)], Pad = ENCIPHER(K, Offset_*)
        block::inplace_xor(part, k.cipher.encipher(offset));
        // Checksum_* = Checksum_m xor (P_* || 1 || zeros(127 - bitlen(P_*)))
        let sum = block::xor(self.sum, W::plain(before, blocks::pad(part)));
        Run {
            done: self.done,
            offset,
            sum,
        }
    }
}
