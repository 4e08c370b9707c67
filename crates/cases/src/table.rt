// The table of contents of a case: its first 22 bytes.
ghost use Rattle.std.specs.Prelude.{◌≡◌, ◌+◌, ◌≤◌, ◌<◌, length, MatchOption};
ghost use Rattle.cases.specs.Case.{word};
ghost use Rattle.cases.specs.Places.{found};

// Whether to open (a bool, as specs/Case.antt has it), m, and (places, as specs/Places.antt has them) where each body behind the key begins. The key begins at 22, and the last body ends at end.
#[derive(Clone, Copy)]
pub struct Table {
    pub opens: bool,
    pub m: usize,
    pub nonce: usize,
    pub ad: usize,
    pub text: usize,
    pub tag: usize,
    pub end: usize,
}

// The length of a body, in four bytes from place at on; none where it is above 8,192.
fn body_length(case: &[u8], at: usize) -> Option<usize>
    requires { at + 4 ≤ length case.now }
    ensures { MatchOption result (8192 < word case.now at) (λ n. (n ≡ word case.now at) × (n ≤ 8192)) }
{
    let n = block::load_le32(case, at);
    if 8192 < n {
        return None;
    }
    Some(n)
}

// Reads the table and holds it to the bytes that there are; none where the case is of bad form.
pub fn find(case: &[u8]) -> Option<Table>
    ensures { result ≡ found case.now }
{
    if case.len() < 22 {
        return None;
    }
    if 1 < case[0] {
        return None;
    }
    let nonce = 22 + body_length(case, 2)?;
    let ad = nonce + body_length(case, 6)?;
    let text = ad + body_length(case, 10)?;
    let tag = text + body_length(case, 14)?;
    let end = tag + body_length(case, 18)?;
    if case.len() != end {
        return None;
    }
    Some(Table {
        opens: case[0] == 1,
        m: case[1] as usize,
        nonce,
        ad,
        text,
        tag,
        end,
    })
}
