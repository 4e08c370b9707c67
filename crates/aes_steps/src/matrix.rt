// The matrices of MixColumns and of its inverse (FIPS 197, 5.1.3 and 5.3.3): each row but the first is the one above turned one place to the right.
ghost use Rattle.std.specs.Prelude.{◌≡◌, ℕ};
ghost use Rattle.standards.specs.Fips197.{columns};
ghost use Rattle.aes_steps.specs.Matrix.{turns};

pub(crate) trait Matrix {
    ghost first_row: { ℕ → ℕ → ℕ → ℕ → ℕ };

    // The first row on four bytes.
    fn first_row(a: u8, b: u8, c: u8, d: u8) -> u8
        ensures { result ≡ first_row a b c d };
}

// A column under the matrix.
fn mixed_column<M: Matrix>(a: [u8; 4]) -> [u8; 4]
    ensures { result ≡ turns M.first_row a }
{
    let [p, q, r, s] = a;
    let first = M::first_row(p, q, r, s);
    let second = M::first_row(q, r, s, p);
    let third = M::first_row(r, s, p, q);
    let fourth = M::first_row(s, p, q, r);
    [first, second, third, fourth]
}

// Each column under the matrix.
pub(crate) fn mixed<M: Matrix>(s: [[u8; 4]; 4]) -> [[u8; 4]; 4]
    ensures { result ≡ columns (turns M.first_row) s }
{
    let [a, b, c, d] = s;
    [
        mixed_column::<M>(a),
        mixed_column::<M>(b),
        mixed_column::<M>(c),
        mixed_column::<M>(d),
    ]
}
