// A spill file's bytes: its form, where a row stands and what is in it, and whether a file is accepted.
#![tactic(auto)]

ghost use Rattle.std.specs.Prelude.{◌≡◌, true, ◌+◌, ◌^◌, ◌≤◌, ◌<◌, length, take, IfOk, MatchResult};
ghost use Rattle.spill_form.specs.File.{most_bytes, tags_in_bodies, word_at, count, row_at, nonce_of, tenant_of, place_of, length_of, running, no_table, flawed, any_below, file_number};
ghost use Rattle.spill_form.specs.Accepted.{Tabled, HasRow, Passed};
ghost use Rattle.spill_form.specs.Numbers.{number_of, outcome_number};

// The most rows that a file may have.
pub const MOST_ROWS: usize = 256;

// The most bytes.
pub const MOST_BYTES: usize = 65536;

// Why a file, one of its rows or an addition is refused.
#[derive(Clone, Copy, Debug, PartialEq, Eq)]
pub enum Refusal {
    // The output is shorter than the text.
    OutputLength,
    // The bytes do not start with a table, or are too many.
    Table,
    // A row has a flaw.
    Flawed,
    // Bytes stand behind the last body.
    Behind,
    // The row is another tenant's.
    OtherTenant,
    // There is no such row.
    NoRow,
    // A row has the nonce.
    NonceUsed,
    // The file or its buffer has no room for more.
    Full,
    // The tenant is 0.
    NoTenant,
    // What seal and open refuse.
    Sizes(ocb_numbers::Refusal),
}

impl From<Refusal> for usize {
    ghost from_gives = { λ r n. n ≡ number_of r };

    fn from(r: Refusal) -> usize {
        match r {
            Refusal::OutputLength => 9,
            Refusal::Table => 10,
            Refusal::Flawed => 11,
            Refusal::Behind => 12,
            Refusal::OtherTenant => 13,
            Refusal::NoRow => 14,
            Refusal::NonceUsed => 15,
            Refusal::Full => 16,
            Refusal::NoTenant => 17,
            Refusal::Sizes(sizes) => sizes.into(),
        }
    }
}

impl From<ocb_numbers::Refusal> for Refusal {
    ghost use Rattle.spill_form.specs.declared.Refusal.TheVariants.{Sizes};

    ghost from_gives = { λ sizes r. r ≡ Sizes sizes };

    fn from(sizes: ocb_numbers::Refusal) -> Refusal {
        Refusal::Sizes(sizes)
    }
}

// How many of a tag's sixteen bytes stand in the row. The rest of them stand behind the ciphertext. That they are at most sixteen stands in File and in
// clauses, and not here: the definitions and `read_isolated` speak of every Form.
#[derive(Clone, Copy)]
pub struct Form {
    pub tag_in_row: usize,
}

// The form in which the whole tag stands behind the ciphertext.
pub fn tags_in_bodies() -> Form
    ensures { result ≡ tags_in_bodies }
{
    Form { tag_in_row: 0 }
}

// ---- Where things stand, in any bytes

// How many rows the file s says it has.
pub fn count(s: &[u8]) -> usize
    requires { 4 ≤ length s.now }
    ensures { result ≡ count s.now }
{
    block::load_le32(s, 0)
}

// Where row i starts.
pub fn row_at(f: Form, i: usize) -> usize
    requires { (f.tag_in_row ≤ 16) × (i ≤ most_bytes) }
    ensures { result ≡ row_at f i }
{
    4 + (24 + f.tag_in_row) * i
}

// The number in row i of the file s that starts k bytes behind the row's start: 12 the tenant, 16 the body's place, 20 its length.
pub fn field(f: Form, s: &[u8], i: usize, k: usize) -> usize
    requires { (HasRow f s.now i) × (k ≤ 20) }
    ensures { (result ≡ word_at s.now (row_at f i + k)) × (result < 2 ^ 32) }
{
    block::load_le32(s, row_at(f, i) + k)
}

// ---- A file

// Bytes that start with a table, in which every row that is counted has its place.
#[derive(Clone, Copy)]
pub struct File<'a> {
    pub form: Form,
    pub bytes: &'a [u8],
    pub ghost small: { form.tag_in_row ≤ 16 },
    pub ghost few: { length bytes.now ≤ most_bytes },
    pub ghost table: { Tabled form bytes.now },
}

impl<'a> File<'a> {
    // How many rows there are.
    pub fn count(self) -> usize
        ensures { result ≡ count self.entry.bytes.now }
    {
        count(self.bytes)
    }

    // The number in row i that starts k bytes behind the row's start.
    fn word(self, i: usize, k: usize) -> usize
        requires { (i < count self.bytes.now) × (k ≤ 20) }
        ensures { (result ≡ word_at self.entry.bytes.now (row_at self.entry.form i + k)) × (result < 2 ^ 32) }
    {
        field(self.form, self.bytes, i, k)
    }

    // The nonce in row i.
    pub fn nonce(self, i: usize) -> &'a [u8]
        requires { i < count self.bytes.now }
        ensures { result.now ≡ nonce_of self.entry.form self.entry.bytes.now i }
    {
        let at = row_at(self.form, i);
        &self.bytes[at..at + 12]
    }

    // The number of its tenant.
    pub fn tenant(self, i: usize) -> usize
        requires { i < count self.bytes.now }
        ensures { (result ≡ tenant_of self.entry.form self.entry.bytes.now i) × (result < 2 ^ 32) }
    {
        self.word(i, 12)
    }

    // The place of its body.
    pub fn place(self, i: usize) -> usize
        requires { i < count self.bytes.now }
        ensures { (result ≡ place_of self.entry.form self.entry.bytes.now i) × (result < 2 ^ 32) }
    {
        self.word(i, 16)
    }

    // The length of its body.
    pub fn size(self, i: usize) -> usize
        requires { i < count self.bytes.now }
        ensures { (result ≡ length_of self.entry.form self.entry.bytes.now i) × (result < 2 ^ 32) }
    {
        self.word(i, 20)
    }

    // Whether row i, whose body should be at the place run, has a flaw.
    #[tactic(auto, unfolding(crate::specs::File::flawed))]
    fn flawed(self, i: usize, run: usize) -> bool
        requires { (i < count self.bytes.now) × (run ≡ running self.form self.bytes.now i) }
        ensures { result ≡ flawed self.entry.form self.entry.bytes.now i }
    {
        let tenant = self.tenant(i);
        let place = self.place(i);
        let size = self.size(i);
        tenant == 0
            || size < 16 - self.form.tag_in_row
            || place != run
            || self.bytes.len() < place + size
    }

    // The place behind the bodies, where no row has a flaw. One pass. Out of line: inside a reading the loop has too few registers, and takes 22 instructions a
    // row in place of 15.
    #[inline(never)]
    fn end(self) -> Result<usize, Refusal>
        ensures { MatchResult result
            (Passed self.entry.form self.entry.bytes.now (count self.entry.bytes.now))
            (λ e. (e ≡ Refusal.Flawed) × (any_below (flawed self.entry.form self.entry.bytes.now) (count self.entry.bytes.now) ≡ true)) }
    {
        let mut run = row_at(self.form, self.count());
        for i in 0..self.count() {
            if self.flawed(i, run) {
                return Err(Refusal::Flawed);
            }
            run += self.size(i);
        }
        Ok(run)
    }
}

// The file that the bytes are, where they start with a table.
#[tactic(auto, unfolding(crate::specs::File::no_table))]
fn tabled<'a>(form: Form, bytes: &'a [u8]) -> Result<File<'a>, Refusal>
    requires { (form.tag_in_row ≤ 16) × (length bytes.now ≤ most_bytes) }
    ensures { MatchResult result
        (λ s. (s.form ≡ form) × (s.bytes.now ≡ bytes.now))
        (λ e. (e ≡ Refusal.Table) × (no_table form bytes.now ≡ true)) }
{
    if bytes.len() < 4 {
        return Err(Refusal::Table);
    }
    let n = count(bytes);
    if MOST_ROWS < n || bytes.len() < row_at(form, n) {
        return Err(Refusal::Table);
    }
    Ok(File { form, bytes })
}

// The file that the first `file` bytes of a buffer are, where it is accepted. A buffer and a length, as C has them: what stands behind the file is room to add.
pub fn check<'a>(form: Form, buffer: &'a [u8], file: usize) -> Result<File<'a>, Refusal>
    requires { form.tag_in_row ≤ 16 }
    ensures number { outcome_number result ≡ file_number form buffer.now file }
    ensures accepted { IfOk result (λ s. (s.form ≡ form) × (s.bytes.now ≡ take file buffer.now)) }
{
    if buffer.len() < file || MOST_BYTES < file {
        return Err(Refusal::Table);
    }
    let tabled = tabled(form, &buffer[..file])?;
    if tabled.end()? < tabled.bytes.len() {
        return Err(Refusal::Behind);
    }
    Ok(tabled)
}
