// Which way a text goes.
ghost use Rattle.std.specs.Prelude.{◌≡◌, Bool, true, false, cond};
ghost use Rattle.ocb_variables.specs.Held.{key_of};
ghost use Rattle.ocb_steps.specs.Steps.{turned};

use ocb_variables::LentKey;
use sizes::Block;

pub trait Way {
    ghost opens: { Bool };

    // What a block becomes under its offset.
    fn turn(k: &LentKey<'_>, o: Block, b: Block) -> Block
        ensures { result ≡ turned opens (key_of k.now) o b };

    // The plaintext, of what stood in the text and what stands there now.
    fn plain(before: Block, after: Block) -> Block
        ensures { result ≡ cond opens after before };
}

pub struct Sealing;

impl Way for Sealing {
    ghost opens = { false };

    // C_i = Offset_i xor ENCIPHER(K, P_i xor Offset_i)
    fn turn(k: &LentKey<'_>, o: Block, p: Block) -> Block {
        block::xor(o, k.cipher.encipher(block::xor(p, o)))
    }

    fn plain(before: Block, _after: Block) -> Block {
        before
    }
}

pub struct Opening;

impl Way for Opening {
    ghost opens = { true };

    // P_i = Offset_i xor DECIPHER(K, C_i xor Offset_i)
    fn turn(k: &LentKey<'_>, o: Block, c: Block) -> Block {
        block::xor(o, k.cipher.decipher(block::xor(c, o)))
    }

    fn plain(_before: Block, after: Block) -> Block {
        after
    }
}
