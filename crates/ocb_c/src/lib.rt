// OCB3 over AES and spill files for programs in C and Rust: functions over numbers and byte slices, which ocb_link exports. The state of a key lives in a
// buffer that the caller lends; specs/Buffer.antt says how it lies there. include/ocb.h is the same for a reader of C. Numbers, lengths and counts come back as C takes
// them, and seal and open stand twice, because their names and their promises are exported.
#![tactic(auto)]

ghost use Rattle.std.specs.Prelude.{◌≡◌, length, MatchOption};
ghost use Rattle.ocb.specs.Answers.{Leaves};
ghost use Rattle.ocb_c.specs.Buffer.{state_size, encoded, decoded};
ghost use Rattle.spill_read.specs.Reads.{Reads};
ghost use Rattle.spill_add.specs.Adds.{Adds};
ghost use Rattle.ocb_c.specs.Lent.{size_number, set_up_in, Kept, sealed_in, opened_in, read_in, added_in};

use ocb_variables::{KeyValues, State};
use sizes::{ROUND_KEY_BYTES, TABLE_BYTES};

// ---- A state in a buffer

const ROUNDS_AT: usize = ROUND_KEY_BYTES;

const STAR_AT: usize = ROUNDS_AT + 8;

const DOLLAR_AT: usize = STAR_AT + 16;

const M_AT: usize = DOLLAR_AT + 16;

const TABLE_AT: usize = M_AT + 8;

const STATE_SIZE: usize = TABLE_AT + TABLE_BYTES;

// What a buffer of another length is answered with, before every other number.
const NO_STATE: usize = 40;

// The state that a buffer holds; none where its length is not a state's.
#[tactic(auto, unfolding(crate::specs::Lent::size_number))]
fn decode(buffer: &[u8]) -> Option<State>
    ensures { MatchOption result
        (size_number buffer.now ≡ NO_STATE)
        (λ s. (size_number buffer.now ≡ 0) × (s ≡ decoded buffer.now)) }
{
    if buffer.len() != STATE_SIZE {
        return None;
    }
    let mut round_keys = [0u8; ROUND_KEY_BYTES];
    round_keys.copy_from_slice(&buffer[0..ROUNDS_AT]);
    let rounds = block::load_be64(buffer, ROUNDS_AT) as usize;
    let star = block::load(buffer, STAR_AT);
    let dollar = block::load(buffer, DOLLAR_AT);
    let m = block::load_be64(buffer, M_AT) as usize;
    let mut table = [0u8; TABLE_BYTES];
    table.copy_from_slice(&buffer[TABLE_AT..STATE_SIZE]);
    let values = KeyValues {
        rounds,
        star,
        dollar,
        m,
    };
    Some(State {
        round_keys,
        values,
        table,
    })
}

// Writes a state over a buffer. A function, as decode is, and not From or TryFrom: State and slices are other crates' types.
fn encode(s: State, buffer: &mut [u8])
    requires { length buffer.old ≡ state_size }
    ensures { buffer.new ≡ encoded s }
{
    block::copy_at(buffer, 0, &s.round_keys);
    block::store_be64(&mut buffer[ROUNDS_AT..STAR_AT], s.values.rounds as u64);
    block::store(buffer, STAR_AT, s.values.star);
    block::store(buffer, DOLLAR_AT, s.values.dollar);
    block::store_be64(&mut buffer[M_AT..TABLE_AT], s.values.m as u64);
    block::copy_at(buffer, TABLE_AT, &s.table);
}

// How many bytes the buffer of a state has.
pub fn ocb_state_size() -> usize
    ensures { result ≡ state_size }
{
    STATE_SIZE
}

// ---- The entry points

// Makes the state of a key of 16, 24 or 32 bytes in the buffer, for texts and data of at most 2^m blocks; m is 1 to 26.
#[tactic(auto, unfolding(crate::specs::Lent::set_up_in, crate::specs::Lent::size_number))]
pub fn ocb_set_up(state: &mut [u8], key: &[u8], m: usize) -> usize
    ensures { Kept (set_up_in state.old key.now m) result state.new }
{
    if state.len() != STATE_SIZE {
        return NO_STATE;
    }
    let made = ocb::set_up(key, m);
    encode(made.state, state);
    made.number
}

// Seals the text where it lies and writes the tag; `calls` takes the count of cipher calls.
#[tactic(auto, unfolding(crate::specs::Lent::sealed_in))]
pub fn ocb_seal(
    state: &[u8],
    nonce: &[u8],
    ad: &[u8],
    text: &mut [u8],
    tag: &mut [u8],
    calls: &mut usize,
) -> usize
    ensures { Leaves (sealed_in state.now nonce.now ad.now text.old tag.old)
        (record { number = result; calls = calls.new }) text.new tag.new }
{
    let Some(held) = decode(state) else {
        *calls = 0;
        return NO_STATE;
    };
    let answer = ocb::seal(held, nonce, ad, text, tag);
    *calls = answer.calls;
    answer.number
}

// Opens the text where it lies, or makes it zeros; `calls` takes the count of cipher calls.
#[tactic(auto, unfolding(crate::specs::Lent::opened_in))]
pub fn ocb_open(
    state: &[u8],
    nonce: &[u8],
    ad: &[u8],
    text: &mut [u8],
    tag: &[u8],
    calls: &mut usize,
) -> usize
    ensures { Leaves (opened_in state.now nonce.now ad.now text.old tag.now)
        (record { number = result; calls = calls.new }) text.new tag.now }
{
    let Some(held) = decode(state) else {
        *calls = 0;
        return NO_STATE;
    };
    let answer = ocb::open(held, nonce, ad, text, tag);
    *calls = answer.calls;
    answer.number
}

// ---- Spill files

// Reads a row of the file that is the first `file` bytes of the buffer into the front of the output; `written` takes how many bytes of it
// were written, `calls` the count of cipher calls.
#[tactic(auto, unfolding(crate::specs::Lent::read_in))]
pub fn spill_read(
    state: &[u8],
    buffer: &[u8],
    file: usize,
    row: usize,
    tenant: u32,
    out: &mut [u8],
    written: &mut usize,
    calls: &mut usize,
) -> usize
    ensures { Reads (read_in state.now buffer.now file row tenant out.old)
        (record { number = result; calls = calls.new; written = written.new }) out.new }
{
    let Some(held) = decode(state) else {
        *written = 0;
        *calls = 0;
        return NO_STATE;
    };
    let reply = spill_read::read(held, buffer, file, row, tenant, out);
    *written = reply.written;
    *calls = reply.calls;
    reply.number
}

// Adds a text as a row of the file that is the first `file` bytes of the buffer; `new_length` takes the file's length afterwards, `calls` the
// count of cipher calls.
#[tactic(auto, unfolding(crate::specs::Lent::added_in))]
pub fn spill_add(
    state: &[u8],
    buffer: &mut [u8],
    file: usize,
    nonce: &[u8],
    tenant: u32,
    text: &[u8],
    new_length: &mut usize,
    calls: &mut usize,
) -> usize
    ensures { Adds (added_in state.now buffer.old file nonce.now tenant text.now)
        (record { number = result; calls = calls.new; file = new_length.new }) buffer.new }
{
    let Some(held) = decode(state) else {
        *new_length = file;
        *calls = 0;
        return NO_STATE;
    };
    let addition = spill_add::add(held, buffer, file, nonce, tenant, text);
    *new_length = addition.file;
    *calls = addition.calls;
    addition.number
}
