// Reading a row of a spill file. What each number leaves stands in spill_form/specs/Reading.antt, and what follows from it in proofs/Isolation.antt.
#![tactic(auto)]

ghost use Rattle.std.specs.Prelude.{◌≡◌, ◌++◌, ◌+◌, ◌≤◌, ◌<◌, length};
ghost use Rattle.ocb.specs.Answers.{opened};
ghost use Rattle.spill_form.specs.File.{bytes_at, tags_in_bodies, row_size, least_body, count};
ghost use Rattle.spill_form.specs.Accepted.{Accepted};
ghost use Rattle.spill_form.specs.Entries.{text_length};
ghost use Rattle.spill_form.specs.Numbers.{outcome_number};
ghost use Rattle.spill_form.specs.Reading.{row_number, at_front, opened_row, reading};
ghost use Rattle.spill_read.specs.Reads.{Reads, refused, reply_of};

use ocb_variables::State;
use sizes::Block;
use spill_form::{File, Form, Refusal};

// What reading gives: the number, how many blocks went to the cipher, and how many bytes of the output were written. A number and not a Result, as C and
// the theorems of Isolation.antt have it.
#[derive(Clone, Copy)]
pub struct Reply {
    pub number: usize,
    pub calls: usize,
    pub written: usize,
}

// What a refusal gives: nothing went to the cipher, and nothing was written.
impl From<Refusal> for Reply {
    ghost from_gives = { λ e r. r ≡ refused e };

    fn from(e: Refusal) -> Reply {
        Reply {
            number: e.into(),
            calls: 0,
            written: 0,
        }
    }
}

// Whether a row of an accepted file is read for the tenant who asks, into an output of `room` bytes.
#[tactic(auto, unfolding(spill_form::specs::Reading::row_number))]
fn refuse_row(s: File<'_>, row: usize, asking: usize, room: usize) -> Result<(), Refusal>
    requires { Accepted s.form s.bytes.now }
    ensures { outcome_number result ≡ row_number s.entry.form s.entry.bytes.now row asking room }
{
    if s.count() <= row {
        return Err(Refusal::NoRow);
    }
    if s.tenant(row) != asking {
        return Err(Refusal::OtherTenant);
    }
    if room < s.size(row) - (16 - s.form.tag_in_row) {
        return Err(Refusal::OutputLength);
    }
    Ok(())
}

// The tag of a row that starts at `at`, whose ciphertext ends at `end`: its bytes in the row, then those behind the ciphertext.
fn tag_of(s: File<'_>, at: usize, end: usize) -> Block
    requires { (at + row_size s.form ≤ length s.bytes.now) × (end + least_body s.form ≤ length s.bytes.now) }
    ensures { result ≡ bytes_at s.entry.bytes.now (at + 24) s.entry.form.tag_in_row ++ bytes_at s.entry.bytes.now end (least_body s.entry.form) }
{
    let in_row = s.form.tag_in_row;
    let start = at + 24;
    let row_end = start + in_row;
    let body_end = end + (16 - in_row);
    let mut tag = [0u8; 16];
    block::copy_at(&mut tag, 0, &s.bytes[start..row_end]);
    block::copy_at(&mut tag, in_row, &s.bytes[end..body_end]);
    tag
}

// Copies the ciphertext of n bytes at a place to the front of the output and opens it there. Its nonce and its tenant's number stand at `at`.
fn open_at(
    state: State,
    s: &[u8],
    at: usize,
    place: usize,
    n: usize,
    tag: Block,
    out: &mut [u8],
) -> Reply
    requires { (at + 16 ≤ length s.now) × (place + n ≤ length s.now) × (n ≤ length out.old) }
    ensures { Reads (at_front n
        (opened state (bytes_at s.now at 12) (bytes_at s.now (at + 12) 4) (bytes_at s.now place n) tag) out.old)
        result out.new }
{
    let end = place + n;
    block::copy_at(out, 0, &s[place..end]);
    let ad = at + 12;
    let behind = at + 16;
    let answer = ocb::open(state, &s[at..ad], &s[ad..behind], &mut out[..n], &tag);
    Reply {
        number: answer.number,
        calls: answer.calls,
        written: n,
    }
}

// Opens a row of an accepted file at the front of the output, which has room. Open's refusals are tested first: the ciphertext stays out of the output.
fn open_row(state: State, s: File<'_>, row: usize, out: &mut [u8]) -> Result<Reply, Refusal>
    requires { (Accepted s.form s.bytes.now) × (row < count s.bytes.now) × (text_length s.form s.bytes.now row ≤ length out.old) }
    ensures { Reads (opened_row s.entry.form state s.entry.bytes.now row out.old) (reply_of result) out.new }
{
    let at = spill_form::row_at(s.form, row);
    let place = s.place(row);
    let n = s.size(row) - (16 - s.form.tag_in_row);
    let v = state.values;
    ocb_numbers::refuse(v.m, v.rounds, 12, 4, n, 16)?;
    let tag = tag_of(s, at, place + n);
    Ok(open_at(state, s.bytes, at, place, n, tag, out))
}

// The same as `read`, of a file of the form f.
fn read_form(
    state: State,
    f: Form,
    buffer: &[u8],
    file: usize,
    row: usize,
    asking: usize,
    out: &mut [u8],
) -> Result<Reply, Refusal>
    requires { f.tag_in_row ≤ 16 }
    ensures { Reads (reading f state buffer.now file row asking out.old) (reply_of result) out.new }
{
    let s = spill_form::check(f, buffer, file)?;
    refuse_row(s, row, asking, out.len())?;
    open_row(state, s, row, out)
}

// Reads a row of the file that is the first `file` bytes of a buffer, as C has it, for the tenant who asks, into the front of the output.
pub fn read(
    state: State,
    buffer: &[u8],
    file: usize,
    row: usize,
    asking: u32,
    out: &mut [u8],
) -> Reply
    ensures { Reads (reading tags_in_bodies state buffer.now file row asking out.old) result out.new }
{
    let form = spill_form::tags_in_bodies();
    read_form(state, form, buffer, file, row, asking as usize, out).unwrap_or_else(Reply::from)
}
