// An answer as text, put into a lent buffer from a place on: bytes as they are, numbers in decimal, bytes in hex. Each function gives the place behind what it
// put. The buffer and the place are no struct: of a buffer behind a field it is not known that it keeps its length, and each method would have to promise that
// and that it keeps the reference.
#![tactic(auto)]

ghost use Rattle.std.specs.Prelude.{◌≡◌, ◌+◌, ◌*◌, ◌≤◌, ◌<◌, length};
ghost use Rattle.io.specs.Digits.{hex_digit_ascii};
ghost use Rattle.lines.specs.Text.{Puts, decimal, hex, named, numbers_line, hex_line, lines};

// Puts s.
pub fn put(out: &mut [u8], at: usize, s: &[u8]) -> usize
    requires { at + length s.now ≤ length out.old }
    ensures { Puts out.old at s.now result out.new }
{
    block::copy_at(out, at, s);
    at + s.len()
}

// The hex digit of a number below 16. `char::from_digit` gives a char or none, which is no plainer.
fn glyph(n: u8) -> u8
    requires { n < 16 }
    ensures { result ≡ hex_digit_ascii n }
{
    if n < 10 { 48 + n } else { 87 + n }
}

// Puts s in lowercase hex, two digits to a byte.
fn put_hex(out: &mut [u8], at: usize, s: &[u8]) -> usize
    requires { at + 2 * length s.now ≤ length out.old }
    ensures { Puts out.old at (hex s.now) result out.new }
{
    for (i, b) in s.iter().enumerate() {
        let place = at + 2 * i;
        out[place] = glyph(b / 16);
        out[place + 1] = glyph(b % 16);
    }
    at + 2 * s.len()
}

// Puts n in decimal.
fn put_decimal(out: &mut [u8], at: usize, n: usize) -> usize
    requires { at + 20 ≤ length out.old }
    ensures { Puts out.old at (decimal n) result out.new }
{
    let mut digits = [0u8; 20];
    let k = io::decimal(n as u64, &mut digits);
    put(out, at, &digits[..k])
}

// Puts a word and n in decimal behind it.
fn put_named(out: &mut [u8], at: usize, word: &[u8], n: usize) -> usize
    requires { at + length word.now + 20 ≤ length out.old }
    ensures { Puts out.old at (named word.now n) result out.new }
{
    let a = put(out, at, word);
    put_decimal(out, a, n)
}

// Puts the line of the number and the count.
fn put_numbers(out: &mut [u8], at: usize, number: usize, calls: usize) -> usize
    requires { at + 55 ≤ length out.old }
    ensures { Puts out.old at (numbers_line number calls) result out.new }
{
    let a = put_named(out, at, b"answer ", number);
    let b = put_named(out, a, b" calls ", calls);
    put(out, b, b"\n")
}

// Puts s as a line of hex.
fn put_hex_line(out: &mut [u8], at: usize, s: &[u8]) -> usize
    requires { at + 2 * length s.now + 1 ≤ length out.old }
    ensures { Puts out.old at (hex_line s.now) result out.new }
{
    let a = put_hex(out, at, s);
    put(out, a, b"\n")
}

// Puts the three lines of an answer at the front.
pub fn put_answer(out: &mut [u8], number: usize, calls: usize, text: &[u8], tag: &[u8]) -> usize
    requires { (33000 ≤ length out.old) × (length text.now ≤ 8192) × (length tag.now ≤ 8192) }
    ensures { Puts out.old 0 (lines number calls text.now tag.now) result out.new }
{
    let a = put_numbers(out, 0, number, calls);
    let b = put_hex_line(out, a, text);
    put_hex_line(out, b, tag)
}
