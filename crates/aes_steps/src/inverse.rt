// The inverse steps (FIPS 197, 5.3). AddRoundKey is its own inverse.
ghost use Rattle.std.specs.Prelude.{◌≡◌};
ghost use Rattle.standards.specs.Fips197.{inv_sub_bytes, inv_shift_rows, row, inv_mix_columns};
ghost use Rattle.field.specs.Tables.{inv_sbox_table};

use crate::matrix::{Matrix, mixed};
use crate::substitute_all;

pub fn inv_sub_bytes(inv: &[u8; 256], s: [[u8; 4]; 4]) -> [[u8; 4]; 4]
    requires { inv.now ≡ inv_sbox_table }
    ensures { result ≡ inv_sub_bytes s }
{
    substitute_all(inv, s)
}

// Row r goes r places to the right.
pub fn inv_shift_rows(s: [[u8; 4]; 4]) -> [[u8; 4]; 4]
    ensures { result ≡ inv_shift_rows s }
{
    let [a, b, c, d] = s;
    [
        [a[0], d[1], c[2], b[3]],
        [b[0], a[1], d[2], c[3]],
        [c[0], b[1], a[2], d[3]],
        [d[0], c[1], b[2], a[3]],
    ]
}

struct InvMixColumns;

impl Matrix for InvMixColumns {
    ghost first_row = { row 0x0e 0x0b 0x0d 0x09 };

    // 08 of all four, 04 of a and c, 02 of a and b, and b, c and d themselves.
    fn first_row(a: u8, b: u8, c: u8, d: u8) -> u8 {
        let by8 = field::double(field::double(field::double(a ^ b ^ c ^ d)));
        let by4 = field::double(field::double(a ^ c));
        by8 ^ by4 ^ field::double(a ^ b) ^ b ^ c ^ d
    }
}

pub fn inv_mix_columns(s: [[u8; 4]; 4]) -> [[u8; 4]; 4]
    ensures { result ≡ inv_mix_columns s }
{
    mixed::<InvMixColumns>(s)
}
