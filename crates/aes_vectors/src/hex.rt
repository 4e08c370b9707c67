// Bytes from hexadecimal text.
ghost use Rattle.std.specs.Prelude.{◌<◌};

use sizes::Block;

// The value of a digit, 0 to 9 or a to f: a letter's low four bits are nine less. `char::to_digit` gives a number or none, which is no plainer.
fn digit(c: u8) -> u8
    ensures { result < 16 }
{
    (c % 16 + c / 64 * 9) % 16
}

// Fills out with the bytes that the text spells, two digits each.
pub fn unhex(text: &[u8], out: &mut [u8]) {
    let (pairs, _) = text.as_chunks::<2>();
    for (byte, [high, low]) in out.iter_mut().zip(pairs) {
        *byte = digit(*high) * 16 + digit(*low);
    }
}

pub fn block(text: &[u8; 32]) -> Block {
    let mut b = [0u8; 16];
    unhex(text, &mut b);
    b
}
