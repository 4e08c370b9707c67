// A whole text, in place, either way.
ghost use Rattle.std.specs.Prelude.{length};
ghost use Rattle.ocb_numbers.specs.Numbers.{Fits};
ghost use Rattle.ocb_variables.specs.Held.{key_of};
ghost use Rattle.ocb_steps.specs.Steps.{turned};
ghost use Rattle.ocb_walk.specs.Walked.{Walked, Ended, checksum};

use ocb_steps::Run;
use ocb_steps::way::Way;
use ocb_variables::LentKey;
use sizes::Block;

// Two blocks at a time, and the one that may be left, from the first offset o on. A last part stays as it is. The pairs are counted: after a loop over
// chunks_exact_mut nothing is known of what the chunks became.
pub fn walk<W: Way>(k: &LentKey<'_>, o: Block, s: &mut [u8]) -> Run
    requires { Fits k.now.m (length s.old) }
    ensures { Walked W.opens (key_of k.now) o s.old s.new result }
{
    let pairs = s.len() / 32;
    let mut r = Run::start(o);
    for i in 0..pairs {
        let a = i * 32;
        let e = a + 32;
        r = r.pair::<W>(k, &mut s[a..e]);
    }
    let a = pairs * 32;
    let e = a + 16;
    if e <= s.len() {
        r = r.one::<W>(k, &mut s[a..e]);
    }
    r
}

// A whole text, from the first offset o to the last one and the checksum.
pub fn text<W: Way>(k: &LentKey<'_>, o: Block, s: &mut [u8]) -> Run
    requires { Fits k.now.m (length s.old) }
    ensures { Ended (turned W.opens) (checksum W.opens) (key_of k.now) o s.old s.new result }
{
    let whole = s.len() / 16 * 16;
    let r = walk::<W>(k, o, s);
    if whole < s.len() {
        return r.last::<W>(k, &mut s[whole..]);
    }
    r
}
