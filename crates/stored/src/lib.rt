// Whether the port answers a case as a stored list says. specs/Stored.antt says how an answer is stored.
#![tactic(auto)]

ghost use Rattle.std.specs.Bool.{Decides};
ghost use Rattle.cases.specs.Case.{decode};
ghost use Rattle.ocb_c.specs.Lent.{read_in, added_in};
ghost use Rattle.stored.specs.Stored.{Tells, Owed, under, TellsFile, TellsRead, TellsAdd};

use cases::NoReply;

// The stored bytes tell this number, count, text and tag, and nothing else.
fn tells(stored: &[u8], number: usize, calls: usize, text: &[u8], tag: &[u8]) -> bool
    ensures { Decides result (Tells stored.now (record { number = number; calls = calls; text = text.now; tag = tag.now })) }
{
    let n = text.len();
    if stored.len() < 5 || stored.len() - 5 < n {
        return false;
    }
    let same_number = stored[0] as usize == number;
    let same_calls = cases::number_at(stored, 1) == calls;
    let same_text = &stored[5..5 + n] == text;
    let same_tag = &stored[5 + n..] == tag;
    same_number & same_calls & same_text & same_tag
}

// The case is answered as it is stored: with these bytes, or with `bad case` where there are none.
pub fn agrees(case: &[u8], stored: &[u8]) -> bool
    ensures { Decides result (Owed (decode case.now) stored.now) }
{
    let mut text = [0u8; 8192];
    let mut tag = [0u8; 8192];
    match cases::answer(case, &mut text, &mut tag) {
        Ok(a) => tells(stored, a.number, a.calls, &text[..a.text], &tag[..a.tag]),
        Err(NoReply::Bad) => stored.is_empty(),
        Err(NoReply::NoRoom) => false,
    }
}

// The call is answered as it is stored, under a state in a buffer as crate ocb_c has it, whether set-up made it or not. opens is a bool since specs/Stored.antt
// says it as one (`under`).
pub fn agrees_under(
    state: &[u8],
    opens: bool,
    nonce: &[u8],
    ad: &[u8],
    text: &mut [u8],
    tag: &mut [u8],
    stored: &[u8],
) -> bool
    ensures { Decides result (Tells stored.now
        (under opens state.now nonce.now ad.now text.old tag.old)) }
{
    let mut calls = 0;
    let number = if opens {
        ocb_c::ocb_open(state, nonce, ad, text, tag, &mut calls)
    } else {
        ocb_c::ocb_seal(state, nonce, ad, text, tag, &mut calls)
    };
    tells(stored, number, calls, text, tag)
}

// The stored bytes tell this number, count, length and output or buffer, and nothing else. Its form is another one than that of `tells`,
// and its length is two words, as TellsFile says it.
fn tells_file(stored: &[u8], number: usize, calls: usize, size: usize, left: &[u8]) -> bool
    ensures { Decides result (TellsFile stored.now number calls size left.now) }
{
    if stored.len() < 13 {
        return false;
    }
    let low = block::load_le32(stored, 5);
    let high = block::load_le32(stored, 9);
    let same_number = stored[0] as usize == number;
    let same_calls = block::load_le32(stored, 1) == calls;
    let same_size = low + high * 4294967296 == size;
    let same_left = &stored[13..] == left;
    same_number & same_calls & same_size & same_left
}

// The row is read as it is stored, under a state in a buffer as crate ocb_c has it.
pub fn agrees_read(
    state: &[u8],
    buffer: &[u8],
    file: usize,
    row: usize,
    tenant: u32,
    out: &mut [u8],
    stored: &[u8],
) -> bool
    ensures { Decides result (TellsRead stored.now (read_in state.now buffer.now file row tenant out.old)) }
{
    let mut written = 0;
    let mut calls = 0;
    let number = ocb_c::spill_read(
        state,
        buffer,
        file,
        row,
        tenant,
        out,
        &mut written,
        &mut calls,
    );
    tells_file(stored, number, calls, written, out)
}

// The row is added as it is stored.
pub fn agrees_add(
    state: &[u8],
    buffer: &mut [u8],
    file: usize,
    nonce: &[u8],
    tenant: u32,
    text: &[u8],
    stored: &[u8],
) -> bool
    ensures { Decides result (TellsAdd stored.now
        (added_in state.now buffer.old file nonce.now tenant text.now)) }
{
    let mut length = 0;
    let mut calls = 0;
    let number = ocb_c::spill_add(
        state,
        buffer,
        file,
        nonce,
        tenant,
        text,
        &mut length,
        &mut calls,
    );
    tells_file(stored, number, calls, length, buffer)
}
