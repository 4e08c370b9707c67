// What programs in C and Rust link: the functions of ocb_c under the names of include/ocb.h, with the same promises. A slice is passed as its address and
// then its length.
#![tactic(auto)]

ghost use Rattle.std.specs.Prelude.{◌≡◌};
ghost use Rattle.ocb.specs.Answers.{Leaves};
ghost use Rattle.ocb_c.specs.Buffer.{state_size};
ghost use Rattle.spill_read.specs.Reads.{Reads};
ghost use Rattle.spill_add.specs.Adds.{Adds};
ghost use Rattle.ocb_c.specs.Lent.{set_up_in, Kept, sealed_in, opened_in, read_in, added_in};

// How many bytes the buffer of a state has.
#[unsafe(no_mangle)]
pub extern "C" fn ocb_state_size() -> usize
    ensures { result ≡ state_size }
{
    ocb_c::ocb_state_size()
}

// Makes the state of a key of 16, 24 or 32 bytes in the buffer, for texts and data of at most 2^m blocks; m is 1 to 26.
#[unsafe(no_mangle)]
pub extern "C" fn ocb_set_up(state: &mut [u8], key: &[u8], m: usize) -> usize
    ensures { Kept (set_up_in state.old key.now m) result state.new }
{
    ocb_c::ocb_set_up(state, key, m)
}

// Seals the text where it lies and writes the tag; `calls` takes the count of cipher calls.
#[unsafe(no_mangle)]
pub extern "C" fn ocb_seal(
    state: &[u8],
    nonce: &[u8],
    ad: &[u8],
    text: &mut [u8],
    tag: &mut [u8],
    calls: &mut usize,
) -> usize
    ensures { Leaves (sealed_in state.now nonce.now ad.now text.old tag.old)
        (record { number = result; calls = calls.new }) text.new tag.new }
{
    ocb_c::ocb_seal(state, nonce, ad, text, tag, calls)
}

// Opens the text where it lies, or makes it zeros; `calls` takes the count of cipher calls.
#[unsafe(no_mangle)]
pub extern "C" fn ocb_open(
    state: &[u8],
    nonce: &[u8],
    ad: &[u8],
    text: &mut [u8],
    tag: &[u8],
    calls: &mut usize,
) -> usize
    ensures { Leaves (opened_in state.now nonce.now ad.now text.old tag.now)
        (record { number = result; calls = calls.new }) text.new tag.now }
{
    ocb_c::ocb_open(state, nonce, ad, text, tag, calls)
}

// Reads a row of the file that is the first `file` bytes of the buffer into the front of the output; `written` takes how many bytes of it
// were written, `calls` the count of cipher calls.
#[unsafe(no_mangle)]
pub extern "C" fn spill_read(
    state: &[u8],
    buffer: &[u8],
    file: usize,
    row: usize,
    tenant: u32,
    out: &mut [u8],
    written: &mut usize,
    calls: &mut usize,
) -> usize
    ensures { Reads (read_in state.now buffer.now file row tenant out.old)
        (record { number = result; calls = calls.new; written = written.new }) out.new }
{
    ocb_c::spill_read(state, buffer, file, row, tenant, out, written, calls)
}

// Adds a text as a row of the file that is the first `file` bytes of the buffer; `new_length` takes the file's length afterwards, `calls` the
// count of cipher calls.
#[unsafe(no_mangle)]
pub extern "C" fn spill_add(
    state: &[u8],
    buffer: &mut [u8],
    file: usize,
    nonce: &[u8],
    tenant: u32,
    text: &[u8],
    new_length: &mut usize,
    calls: &mut usize,
) -> usize
    ensures { Adds (added_in state.now buffer.old file nonce.now tenant text.now)
        (record { number = result; calls = calls.new; file = new_length.new }) buffer.new }
{
    ocb_c::spill_add(state, buffer, file, nonce, tenant, text, new_length, calls)
}
