// Adding a row to a spill file, in place. What each number leaves stands in spill_form/specs/Adding.antt, and what follows from it in proofs/Additions.antt.
#![tactic(auto)]

ghost use Rattle.std.specs.Prelude.{◌≡◌, cond, ◌≤◌, eqb};
ghost use Rattle.ocb_numbers.specs.Numbers.{refusal};
ghost use Rattle.spill_form.specs.File.{tags_in_bodies};
ghost use Rattle.spill_form.specs.Adding.{nonce_in, add_number, adding};
ghost use Rattle.spill_form.specs.Numbers.{outcome_number};
ghost use Rattle.spill_add.specs.Adds.{Adds, addition_of};

use ocb_variables::{KeyValues, State};
use spill_form::{File, Form, MOST_BYTES, MOST_ROWS, Refusal};

// Whether a row of the file has this nonce. Four bytes are compared as one number, and the whole nonces where these agree: `==` of slices calls a function
// for each row in which they do.
fn has_nonce(held: File<'_>, nonce: &[u8]) -> bool
    ensures { result ≡ nonce_in held.entry.form held.entry.bytes.now nonce.now }
{
    for i in 0..held.count() {
        let row = held.nonce(i);
        if nonce.len() == 12
            && block::load_le32(row, 0) == block::load_le32(nonce, 0)
            && nonce.starts_with(row)
        {
            return true;
        }
    }
    false
}

// Whether a text of `text` bytes is added to the file, in a buffer of `room` bytes.
#[tactic(auto, unfolding(spill_form::specs::Adding::add_number))]
fn refuse_add(
    held: File<'_>,
    nonce: &[u8],
    tenant: usize,
    text: usize,
    room: usize,
) -> Result<(), Refusal>
    ensures { outcome_number result ≡ add_number held.entry.form held.entry.bytes.now nonce.now tenant text room }
{
    if tenant == 0 {
        return Err(Refusal::NoTenant);
    }
    if has_nonce(held, nonce) {
        return Err(Refusal::NonceUsed);
    }
    if held.count() == MOST_ROWS {
        return Err(Refusal::Full);
    }
    // tested by itself, so that the sum below does not wrap
    if MOST_BYTES < text {
        return Err(Refusal::Full);
    }
    let in_row = held.form.tag_in_row;
    let size = held.bytes.len() + (24 + in_row) + (text + (16 - in_row));
    if MOST_BYTES < size || room < size {
        return Err(Refusal::Full);
    }
    Ok(())
}

// Whether seal takes a nonce and a text of so many bytes. A nonce that is not of twelve is answered as one of none is.
fn refuse_seal(v: KeyValues, nonce: usize, text: usize) -> Result<(), Refusal>
    ensures { outcome_number result ≡ refusal v.m v.rounds (cond (eqb nonce 12) 12 0) 4 text 16 }
{
    let nonce = if nonce == 12 { 12 } else { 0 };
    ocb_numbers::refuse(v.m, v.rounds, nonce, 4, text, 16)?;
    Ok(())
}

// What adding gives: the number, how many blocks went to the cipher, and the file's length afterwards. A number and not a Result, as C and the theorems of
// Additions.antt have it.
#[derive(Clone, Copy)]
pub struct Addition {
    pub number: usize,
    pub calls: usize,
    pub file: usize,
}

// The same as `add`, to a file of the form f. Every number is tested before anything is written.
fn add_form(
    s: State,
    f: Form,
    buffer: &mut [u8],
    file: usize,
    nonce: &[u8],
    tenant: u32,
    text: &[u8],
) -> Result<Addition, Refusal>
    requires { f.tag_in_row ≤ 16 }
    ensures { Adds (adding f s buffer.old file nonce.now tenant text.now) (addition_of file result) buffer.new }
{
    let held = spill_form::check(f, buffer, file)?;
    refuse_add(held, nonce, tenant as usize, text.len(), buffer.len())?;
    refuse_seal(s.values, nonce.len(), text.len())?;
    let n = held.count();
    let size = file + (24 + f.tag_in_row) + (text.len() + (16 - f.tag_in_row));
    let calls = spill_lay::lay(f, s, buffer, file, n, nonce, tenant as usize, text);
    Ok(Addition {
        number: 0,
        calls,
        file: size,
    })
}

// Adds a row to the file that is the first `file` bytes of a buffer, as C has it: a text, sealed for a tenant under a nonce of twelve bytes. A refusal changes nothing.
pub fn add(
    s: State,
    buffer: &mut [u8],
    file: usize,
    nonce: &[u8],
    tenant: u32,
    text: &[u8],
) -> Addition
    ensures { Adds (adding tags_in_bodies s buffer.old file nonce.now tenant text.now) result buffer.new }
{
    let form = spill_form::tags_in_bodies();
    match add_form(s, form, buffer, file, nonce, tenant, text) {
        Ok(addition) => addition,
        Err(refused) => Addition {
            number: refused.into(),
            calls: 0,
            file,
        },
    }
}
