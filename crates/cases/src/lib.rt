// A case of the test program: its bytes are read, it is answered through ocb, and the answer is written as text.
// Any bytes of any length get an answer.
#![tactic(auto)]

mod table; // table.rt: what the first 22 bytes of a case say

ghost use Rattle.std.specs.Prelude.{◌≡◌, ◌+◌, ◌≤◌, ◌<◌, length};
ghost use Rattle.io.specs.Counts.{IsPrefixLen};
ghost use Rattle.ocb.specs.Answers.{Leaves, set_up};
ghost use Rattle.cases.specs.Case.{word, after, decode};
ghost use Rattle.cases.specs.Places.{Within, Room, case_at};
ghost use Rattle.cases.specs.Replies.{Lays, Left, result_of, Responds};

use ocb::Answer;
use table::Table;

// The answer to a case, with its text and its tag at the front of two lent buffers, in so many bytes: the buffers are the caller's, since there is no heap.
#[derive(Clone, Copy)]
pub struct Reply {
    pub number: usize,
    pub calls: usize,
    pub text: usize,
    pub tag: usize,
}

// Why there is no answer: the case is of bad form, or one of the buffers is too small.
#[derive(Clone, Copy, Debug, PartialEq, Eq)]
pub enum NoReply {
    Bad,
    NoRoom,
}

// The number that four bytes of s from place at on are, the lowest first; 0 where there are not so many, since its clause `fewer` promises that it cannot fail.
pub fn number_at(s: &[u8], at: usize) -> usize
    ensures four { at + 4 ≤ length s.now → result ≡ word s.now at }
    ensures fewer { length s.now < at + 4 → result ≡ 0 }
{
    if s.len() < 4 || s.len() - 4 < at {
        return 0;
    }
    block::load_le32(s, at)
}

// Answers a case whose bodies are lent apart: sets up, then opens or seals the text where it lies. opens is a bool since specs/Case.antt says it as one (`after`).
pub fn work(
    opens: bool,
    m: usize,
    key: &[u8],
    nonce: &[u8],
    ad: &[u8],
    text: &mut [u8],
    tag: &mut [u8],
) -> Answer
    ensures { Leaves (after (set_up key.now m) opens nonce.now ad.now text.old tag.old) result text.new tag.new }
{
    let u = ocb::set_up(key, m);
    if u.number != 0 {
        return Answer {
            number: u.number,
            calls: 0,
        };
    }
    if opens {
        ocb::open(u.state, nonce, ad, text, tag)
    } else {
        ocb::seal(u.state, nonce, ad, text, tag)
    }
}

// Answers a case whose bodies are where t says, with its text and its tag at the front of the two lent buffers, which have room.
fn answer_at(case: &[u8], t: Table, text: &mut [u8], tag: &mut [u8]) -> Answer
    requires { (Within case.now t) × (Room t text.old tag.old) }
    ensures { Lays (case_at case.now t) result text.old tag.old text.new tag.new }
{
    lines::put(text, 0, &case[t.text..t.tag]);
    lines::put(tag, 0, &case[t.tag..t.end]);
    work(
        t.opens,
        t.m,
        &case[22..t.nonce],
        &case[t.nonce..t.ad],
        &case[t.ad..t.text],
        &mut text[..t.tag - t.text],
        &mut tag[..t.end - t.tag],
    )
}

// Answers a case, with its text and its tag at the front of the two lent buffers.
pub fn answer(case: &[u8], text: &mut [u8], tag: &mut [u8]) -> Result<Reply, NoReply>
    ensures { Left (result_of (decode case.now) text.old tag.old) result text.new tag.new }
{
    let t = table::find(case).ok_or(NoReply::Bad)?;
    let texts = t.tag - t.text;
    let tags = t.end - t.tag;
    if text.len() < texts {
        return Err(NoReply::NoRoom);
    }
    if tag.len() < tags {
        return Err(NoReply::NoRoom);
    }
    let a = answer_at(case, t, text, tag);
    Ok(Reply {
        number: a.number,
        calls: a.calls,
        text: texts,
        tag: tags,
    })
}

// Writes what the test program writes for a case at the front of out, and gives its length. An out of fewer than 33,000 bytes, which may be too few,
// is left alone, and the length is then 0 and not none: its clauses `responds` and `prefix` promise a length.
pub fn respond(case: &[u8], out: &mut [u8]) -> usize
    ensures responds { Responds (decode case.now) out.old result out.new }
    ensures prefix { IsPrefixLen result out.new }
{
    if out.len() < 33000 {
        return 0;
    }
    let mut text = [0u8; 8192];
    let mut tag = [0u8; 8192];
    match answer(case, &mut text, &mut tag) {
        Ok(a) => lines::put_answer(out, a.number, a.calls, &text[..a.text], &tag[..a.tag]),
        Err(NoReply::Bad) => lines::put(out, 0, b"bad case\n"),
        Err(NoReply::NoRoom) => 0,
    }
}
