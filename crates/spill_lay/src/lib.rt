// A row and a body laid into a buffer behind the rows and bodies of a spill file: the bodies move up, the text is sealed behind them, and the row, the count
// and the places are written. Each byte that was there is moved at most once.
#![tactic(auto)]

ghost use Rattle.std.specs.Prelude.{◌≡◌, ◌++◌, ◌+◌, ◌≤◌, length};
ghost use Rattle.block.specs.Words.{le_bytes};
ghost use Rattle.spill_form.specs.File.{most_rows, row_at};
ghost use Rattle.spill_form.specs.Adding.{added};
ghost use Rattle.spill_lay.specs.Steps.{over, raised, SealedAt};
ghost use Rattle.spill_lay.specs.Laying.{Laying};

use ocb_variables::State;
use sizes::Block;
use spill_form::Form;

// Raises the places in the first n rows.
fn raise(f: Form, buffer: &mut [u8], n: usize, by: usize)
    requires { (f.tag_in_row ≤ 16) × (n ≤ most_rows) × (by ≤ 40) × (row_at f n ≤ length buffer.old) }
    ensures { buffer.new ≡ raised f by n buffer.old }
{
    for i in 0..n {
        let at = spill_form::row_at(f, i) + 16;
        let place = block::load_le32(buffer, at);
        block::store_le32(buffer, at, place + by);
    }
}

// Writes a row at a place: the nonce, the tenant's number, the body's place and length, and what of the tag stands in the row. They come apart: a struct
// of them would be made for this call and taken apart in it.
fn write_row(
    buffer: &mut [u8],
    at: usize,
    nonce: &[u8],
    tenant: usize,
    place: usize,
    size: usize,
    tag: &[u8],
)
    requires { (length nonce.now ≡ 12) × (at + (24 + length tag.now) ≤ length buffer.old) }
    ensures { buffer.new ≡ over buffer.old at
        (nonce.now ++ (le_bytes 4 tenant ++ (le_bytes 4 place ++ (le_bytes 4 size ++ tag.now)))) }
{
    block::copy_at(buffer, at, nonce);
    block::store_le32(buffer, at + 12, tenant);
    block::store_le32(buffer, at + 16, place);
    block::store_le32(buffer, at + 20, size);
    block::copy_at(buffer, at + 24, tag);
}

// What sealing a text gives: how many blocks went to the cipher, and the tag.
#[derive(Clone, Copy)]
struct Sealed {
    calls: usize,
    tag: Block,
}

// Copies a text into a buffer and seals it there for a tenant, whose number's four bytes are the associated data.
fn seal_text(
    s: State,
    buffer: &mut [u8],
    at: usize,
    nonce: &[u8],
    tenant: usize,
    text: &[u8],
) -> Sealed
    requires { (length nonce.now ≡ 12) × (at + length text.now ≤ length buffer.old) }
    ensures { SealedAt s buffer.old at nonce.now tenant text.now result buffer.new }
{
    block::copy_at(buffer, at, text);
    let end = at + text.len();
    let mut ad = [0u8; 4];
    block::store_le32(&mut ad, 0, tenant);
    let mut tag = [0u8; 16];
    let answer = ocb::seal(s, nonce, &ad, &mut buffer[at..end], &mut tag);
    Sealed {
        calls: answer.calls,
        tag,
    }
}

// Lays a row and a body into a buffer that has room for them behind an accepted file of n rows. Gives how many blocks went to the cipher. The parameters
// are those of spill_add::add, with the form and n: a File would lend the bytes that are written here.
pub fn lay(
    f: Form,
    s: State,
    buffer: &mut [u8],
    file: usize,
    n: usize,
    nonce: &[u8],
    tenant: usize,
    text: &[u8],
) -> usize
    requires { Laying f buffer.old file n nonce.now tenant text.now }
    ensures { (result ≡ (added f s buffer.old file nonce.now tenant text.now).calls)
        × (buffer.new ≡ (added f s buffer.old file nonce.now tenant text.now).buffer) }
{
    let in_row = f.tag_in_row;
    let end = spill_form::row_at(f, n);
    let by = 24 + in_row;
    buffer.copy_within(end..file, end + by);
    let at = file + by;
    let sealed = seal_text(s, buffer, at, nonce, tenant, text);
    let tag = sealed.tag;
    let behind = at + text.len();
    block::copy_at(buffer, behind, &tag[in_row..]);
    let size = text.len() + (16 - in_row);
    write_row(buffer, end, nonce, tenant, at, size, &tag[..in_row]);
    block::store_le32(buffer, 0, n + 1);
    raise(f, buffer, n, by);
    sealed.calls
}
