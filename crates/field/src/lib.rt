// The field GF(2^8) of FIPS 197, section 4, and the tables of section 5: S-box, inverse S-box and round constants.
#![tactic(auto)]

mod inv_sbox_table;
mod sbox_table;

ghost use Rattle.std.specs.Prelude.{◌≡◌};
ghost use Rattle.standards.specs.Fips197.{xtime};
ghost use Rattle.field.specs.Tables.{sbox_table, inv_sbox_table, rcon_table};

// Rcon[1] to Rcon[10].
static RCON: [u8; 10] = [0x01, 0x02, 0x04, 0x08, 0x10, 0x20, 0x40, 0x80, 0x1b, 0x36];

// Each table has a function of its own, since each promises another rule.
pub fn sbox() -> &'static [u8; 256]
    ensures { result.now ≡ sbox_table }
{
    &sbox_table::SBOX
}

pub fn inv_sbox() -> &'static [u8; 256]
    ensures { result.now ≡ inv_sbox_table }
{
    &inv_sbox_table::INV_SBOX
}

pub fn round_constants() -> &'static [u8; 10]
    ensures { result.now ≡ rcon_table }
{
    &RCON
}

// The product by x: XTIMES of section 4.2.
pub fn double(b: u8) -> u8
    ensures { result ≡ xtime b }
{
    (b << 1) ^ ((b >> 7) * 0x1b)
}
