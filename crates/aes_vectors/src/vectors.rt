// The published values, in lower case hexadecimal, each under the paper that gives it.
use crate::hex::{block, unhex};
use sizes::{Block, KEY_256, ROUND_KEY_BYTES, RoundKeys};

// A key of the length given, at the front of the longest one's place: there is no heap, and the three lengths go through one list.
#[derive(Clone, Copy)]
pub struct Key {
    pub bytes: [u8; KEY_256],
    pub length: usize,
}

fn read_key(text: &[u8]) -> Key {
    let mut bytes = [0u8; KEY_256];
    unhex(text, &mut bytes);
    Key {
        bytes,
        length: text.len() / 2,
    }
}

// ---- Key schedules

// A key, and the words of its schedule with zeros behind them.
#[derive(Clone, Copy)]
pub struct Schedule {
    pub key: Key,
    pub words: RoundKeys,
}

fn read_schedule(text: &[u8], words: &[u8]) -> Schedule {
    let mut w = [0u8; ROUND_KEY_BYTES];
    unhex(words, &mut w);
    Schedule {
        key: read_key(text),
        words: w,
    }
}

// FIPS 197, appendix A.1: words w0 to w43.
pub fn fips_197_a_1() -> Schedule {
    read_schedule(
        b"2b7e151628aed2a6abf7158809cf4f3c",
        b"2b7e151628aed2a6abf7158809cf4f3ca0fafe1788542cb123a339392a6c7605\
          f2c295f27a96b9435935807a7359f67f3d80477d4716fe3e1e237e446d7a883b\
          ef44a541a8525b7fb671253bdb0bad00d4d1c6f87c839d87caf2b8bc11f915bc\
          6d88a37a110b3efddbf98641ca0093fd4e54f70e5f5fc9f384a64fb24ea6dc4f\
          ead27321b58dbad2312bf5607f8d292fac7766f319fadc2128d12941575c006e\
          d014f9a8c9ee2589e13f0cc8b6630ca6",
    )
}

// FIPS 197, appendix A.2: words w0 to w51.
pub fn fips_197_a_2() -> Schedule {
    read_schedule(
        b"8e73b0f7da0e6452c810f32b809079e562f8ead2522c6b7b",
        b"8e73b0f7da0e6452c810f32b809079e562f8ead2522c6b7bfe0c91f72402f5a5\
          ec12068e6c827f6b0e7a95b95c56fec24db7b4bd69b5411885a74796e92538fd\
          e75fad44bb095386485af05721efb14fa448f6d94d6dce24aa326360113b30e6\
          a25e7ed583b1cf9a27f939436a94f767c0a69407d19da4e1ec1786eb6fa64971\
          485f703222cb8755e26d135233f0b7b340beeb282f18a2596747d26b458c553e\
          a7e1466c9411f1df821f750aad07d753ca4005388fcc5006282d166abc3ce7b5\
          e98ba06f448c773c8ecc720401002202",
    )
}

// FIPS 197, appendix A.3: words w0 to w59.
pub fn fips_197_a_3() -> Schedule {
    read_schedule(
        b"603deb1015ca71be2b73aef0857d77811f352c073b6108d72d9810a30914dff4",
        b"603deb1015ca71be2b73aef0857d77811f352c073b6108d72d9810a30914dff4\
          9ba354118e6925afa51a8b5f2067fcdea8b09c1a93d194cdbe49846eb75d5b9a\
          d59aecb85bf3c917fee94248de8ebe96b5a9328a2678a647983122292f6c79b3\
          812c81addadf48ba24360af2fab8b46498c5bfc9bebd198e268c3ba709e04214\
          68007bacb2df331696e939e46c518d80c814e20476a9fb8a5025c02d59c58239\
          de1369676ccc5a71fa2563959674ee155886ca5d2e2f31d77e0af1fa27cf73c3\
          749c47ab18501ddae2757e4f7401905acafaaae3e4d59b349adf6acebd10190d\
          fe4890d1e6188d0b046df344706c631e",
    )
}

// ---- Blocks

// A block, and what the key's cipher makes of it.
#[derive(Clone, Copy)]
pub struct Case {
    pub key: Key,
    pub plain: Block,
    pub cipher: Block,
}

fn read_case(text: &[u8], plain: &[u8; 32], cipher: &[u8; 32]) -> Case {
    Case {
        key: read_key(text),
        plain: block(plain),
        cipher: block(cipher),
    }
}

// FIPS 197, appendix B and C.1 to C.3.
pub fn fips_197_b_c() -> [Case; 4] {
    [
        // B
        read_case(
            b"2b7e151628aed2a6abf7158809cf4f3c",
            b"3243f6a8885a308d313198a2e0370734",
            b"3925841d02dc09fbdc118597196a0b32",
        ),
        // C.1
        read_case(
            b"000102030405060708090a0b0c0d0e0f",
            b"00112233445566778899aabbccddeeff",
            b"69c4e0d86a7b0430d8cdb78070b4c55a",
        ),
        // C.2
        read_case(
            b"000102030405060708090a0b0c0d0e0f1011121314151617",
            b"00112233445566778899aabbccddeeff",
            b"dda97ca4864cdfe06eaf70a0ec0d7191",
        ),
        // C.3
        read_case(
            b"000102030405060708090a0b0c0d0e0f101112131415161718191a1b1c1d1e1f",
            b"00112233445566778899aabbccddeeff",
            b"8ea2b7ca516745bfeafc49904b496089",
        ),
    ]
}

// NIST SP 800-38A, F.1: the four blocks that it has enciphered under each key.
fn ecb(
    text: &[u8],
    first: &[u8; 32],
    second: &[u8; 32],
    third: &[u8; 32],
    fourth: &[u8; 32],
) -> [Case; 4] {
    [
        read_case(text, b"6bc1bee22e409f96e93d7e117393172a", first),
        read_case(text, b"ae2d8a571e03ac9c9eb76fac45af8e51", second),
        read_case(text, b"30c81c46a35ce411e5fbc1191a0a52ef", third),
        read_case(text, b"f69f2445df4f9b17ad2b417be66c3710", fourth),
    ]
}

// F.1.1 (ECB-AES128.Encrypt) and F.1.2 (ECB-AES128.Decrypt).
pub fn sp_800_38a_128() -> [Case; 4] {
    ecb(
        b"2b7e151628aed2a6abf7158809cf4f3c",
        b"3ad77bb40d7a3660a89ecaf32466ef97",
        b"f5d3d58503b9699de785895a96fdbaaf",
        b"43b1cd7f598ece23881b00e3ed030688",
        b"7b0c785e27e8ad3f8223207104725dd4",
    )
}

// F.1.3 (ECB-AES192.Encrypt) and F.1.4 (ECB-AES192.Decrypt).
pub fn sp_800_38a_192() -> [Case; 4] {
    ecb(
        b"8e73b0f7da0e6452c810f32b809079e562f8ead2522c6b7b",
        b"bd334f1d6e45f25ff712a214571fa5cc",
        b"974104846d0ad3ad7734ecb3ecee4eef",
        b"ef7afd2270e2e60adce0ba2face6444e",
        b"9a4b41ba738d6c72fb16691603c18e0e",
    )
}

// F.1.5 (ECB-AES256.Encrypt) and F.1.6 (ECB-AES256.Decrypt).
pub fn sp_800_38a_256() -> [Case; 4] {
    ecb(
        b"603deb1015ca71be2b73aef0857d77811f352c073b6108d72d9810a30914dff4",
        b"f3eed1bdb5d2a03c064b5a7e3db181f8",
        b"591ccb10d410ed26dc5ba74a31362870",
        b"b6ed21b99ca6f4f9f153e7b1beafed1d",
        b"23304b7a39f9f3ff067d8d8f9e24ecc7",
    )
}
