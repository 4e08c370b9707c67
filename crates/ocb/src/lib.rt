// OCB3 (RFC 7253) over AES (FIPS 197): the entry points. Every input is answered. What each number leaves stands in specs/Answers.antt,
// and what follows from it for states made from a key in proofs/Demands.antt.
#![tactic(auto)]

ghost use Rattle.std.specs.Prelude.{◌≡◌, length};
ghost use Rattle.ocb_numbers.specs.Numbers.{number_of, InRange};
ghost use Rattle.ocb_variables.specs.Held.{key_of};
ghost use Rattle.ocb.specs.Answers.{zero_state, set_up, sealed, opened, Leaves};
ghost use Rattle.ocb.specs.Inner.{Through, Encrypted, Decrypted};

use ocb_numbers::Refusal;
use ocb_steps::way::{Opening, Sealing, Way};
use ocb_variables::{KeyValues, LentKey, State};
use sizes::{Block, ROUND_KEY_BYTES, TABLE_BYTES};

// What set_up gives: its number, and the state to seal and open with. A number and not a Result, as C and the theorems of Demands.antt have it.
#[derive(Clone, Copy)]
pub struct SetUp {
    pub number: usize,
    pub state: State,
}

// What seal and open give: the number, and how many blocks went to the cipher. A number too: 7 comes with a count.
#[derive(Clone, Copy)]
pub struct Answer {
    pub number: usize,
    pub calls: usize,
}

// What a refusal of the sizes gives: nothing went to the cipher.
impl From<Refusal> for Answer {
    ghost from_gives = { λ r a. a ≡ record { number = number_of r; calls = 0 } };

    fn from(r: Refusal) -> Answer {
        Answer {
            number: r.into(),
            calls: 0,
        }
    }
}

// The state of a set-up that is refused: zeros, which seal and open answer with 2.
fn zero_state() -> State
    ensures { result ≡ zero_state }
{
    State {
        round_keys: [0; ROUND_KEY_BYTES],
        values: KeyValues {
            rounds: 0,
            star: [0; 16],
            dollar: [0; 16],
            m: 0,
        },
        table: [0; TABLE_BYTES],
    }
}

// The state of a key of 16, 24 or 32 bytes, for texts and data of at most 2^m blocks; m is 1 to 26.
pub fn set_up(key: &[u8], m: usize) -> SetUp
    ensures { result ≡ set_up key.now m }
{
    if let Err(refused) = ocb_numbers::refuse_set_up(key.len(), m) {
        return SetUp {
            number: refused.into(),
            state: zero_state(),
        };
    }
    let rounds = aes::rounds_for(key.len());
    let state = ocb_variables::key_dependent_variables(aes::expand_key(key), rounds, m);
    SetUp { number: 0, state }
}

// Takes a text whose sizes are in range through the mode, either way, for a tag of so many bytes, and gives all sixteen bytes of its tag. That the sizes are in
// range stands in three clauses: it is a fact of a key and four parts that are lent apart, as C and RFC 7253 have them.
fn through<W: Way>(k: &LentKey<'_>, nonce: &[u8], ad: &[u8], text: &mut [u8], tag: usize) -> Block
    requires { InRange k.now.m (length nonce.now) (length ad.now) (length text.old) tag }
    ensures { Through W.opens (key_of k.now) nonce.now ad.now tag text.old text.new result }
{
    let offset = ocb_variables::initial_offset(&k.cipher, nonce, tag);
    let run = ocb_walk::text::text::<W>(k, offset, text);
    ocb_walk::tag::compute_tag(k, run, ad)
}

// Seals a text whose sizes are in range, under a lent key.
fn encrypt(k: &LentKey<'_>, nonce: &[u8], ad: &[u8], text: &mut [u8], tag: &mut [u8])
    requires { InRange k.now.m (length nonce.now) (length ad.now) (length text.old) (length tag.old) }
    ensures { Encrypted (key_of k.now) nonce.now ad.now text.old tag.old text.new tag.new }
{
    let computed = through::<Sealing>(k, nonce, ad, text, tag.len());
    ocb_walk::tag::write_tag(computed, tag);
}

// Opens a text whose sizes are in range, under a lent key, and says whether the tag is the text's.
fn decrypt(k: &LentKey<'_>, nonce: &[u8], ad: &[u8], text: &mut [u8], tag: &[u8]) -> bool
    requires { InRange k.now.m (length nonce.now) (length ad.now) (length text.old) (length tag.now) }
    ensures { Decrypted (key_of k.now) nonce.now ad.now text.old tag.now text.new result }
{
    let computed = through::<Opening>(k, nonce, ad, text, tag.len());
    ocb_walk::tag::tags_equal(computed, tag)
}

// Seals the text where it lies and writes the tag over the whole tag place, whose length is the tag's. A refusal changes neither.
pub fn seal(s: State, nonce: &[u8], ad: &[u8], text: &mut [u8], tag: &mut [u8]) -> Answer
    ensures { Leaves (sealed s nonce.now ad.now text.old tag.old)
        result text.new tag.new }
{
    let v = s.values;
    let sizes = ocb_numbers::refuse(v.m, v.rounds, nonce.len(), ad.len(), text.len(), tag.len());
    if let Err(refused) = sizes {
        return refused.into();
    }
    let calls = ocb_numbers::calls(ad.len(), text.len());
    // the state is copied here, to be lent, and not at the entry, so that a refusal copies nothing
    let s = s;
    encrypt(&s.lend(), nonce, ad, text, tag);
    Answer { number: 0, calls }
}

// Opens the text where it lies. If the tag is not the text's, every byte of the text is zero; a refusal of the sizes changes nothing. It stands beside seal and
// not in one function with it, since it promises another thing of the tag.
pub fn open(s: State, nonce: &[u8], ad: &[u8], text: &mut [u8], tag: &[u8]) -> Answer
    ensures { Leaves (opened s nonce.now ad.now text.old tag.now)
        result text.new tag.now }
{
    let v = s.values;
    let sizes = ocb_numbers::refuse(v.m, v.rounds, nonce.len(), ad.len(), text.len(), tag.len());
    if let Err(refused) = sizes {
        return refused.into();
    }
    let calls = ocb_numbers::calls(ad.len(), text.len());
    // copied here, as seal does
    let s = s;
    if decrypt(&s.lend(), nonce, ad, text, tag) {
        return Answer { number: 0, calls };
    }
    block::clear(text);
    Answer {
        number: Refusal::WrongTag.into(),
        calls,
    }
}
