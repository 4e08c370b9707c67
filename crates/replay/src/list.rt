// The entries of a stored list, read from a file: each case goes to the port, and its answer is compared with the one stored behind it. data/README.md has
// the form of a list.
use std::io::Read;
use std::{fmt, io};

// How a list came out: how many entries it says to have, how many of them agree, the first that does not, counted from 1, and whether it has just those
// entries, each of good form.
#[derive(Clone, Copy)]
pub struct Tally {
    entries: u32,
    agreed: u32,
    wrong: Option<u32>,
    whole: bool, // of the list itself: no field depends on it
}

impl fmt::Display for Tally {
    fn fmt<W: fmt::Write>(&self, f: &mut fmt::Formatter<W>) -> fmt::Result {
        write!(f, "{} of {} agree", self.agreed, self.entries)?;
        if let Some(wrong) = self.wrong {
            write!(f, "; the first that does not is number {wrong}")?;
        }
        if !self.whole {
            write!(f, "; the list is cut, or has bytes behind its last entry")?;
        }
        Ok(())
    }
}

// Room for the buffer, the output or the text of a call on a spill file, and for an answer.
const FILE_ROOM: usize = 65664;

// What ends a list before its end: an entry is not whole, or a length in it is longer than that of any good case or answer.
#[derive(Clone, Copy)]
struct Cut;

impl From<io::Error> for Cut {
    fn from(_e: io::Error) -> Cut {
        Cut
    }
}

// The number in the next four bytes, the lowest first.
fn number(from: &mut impl Read) -> Result<u32, Cut> {
    let mut bytes = [0u8; 4];
    from.read_exact(&mut bytes)?;
    Ok(u32::from_le_bytes(bytes))
}

// Reads the next frame, bytes with their length before them, to the front of a buffer, and gives that front.
fn frame<'a>(from: &mut impl Read, buffer: &'a mut [u8]) -> Result<&'a mut [u8], Cut> {
    let n = number(from)? as usize;
    let Some(front) = buffer.get_mut(..n) else {
        return Err(Cut);
    };
    from.read_exact(front)?;
    Ok(front)
}

// Runs the next entry of a list of cases, and says whether it agrees. Here and below the buffers stand first: one that stands behind a `?` is zeroed twice.
fn next_case<R: Read>(from: &mut R) -> Result<bool, Cut> {
    let mut case = [0u8; 65536];
    let mut answer = [0u8; 65536];
    let case = frame(from, &mut case)?;
    let answer = frame(from, &mut answer)?;
    Ok(stored::agrees(case, answer))
}

// Runs the next entry of a list of calls under states.
fn next_call<R: Read>(from: &mut R) -> Result<bool, Cut> {
    let mut way = [0u8; 1];
    let mut state = [0u8; 728];
    let mut nonce = [0u8; 64];
    let mut data = [0u8; 8192];
    let mut text = [0u8; 8192];
    let mut tag = [0u8; 64];
    let mut answer = [0u8; 16384];
    frame(from, &mut way)?;
    let state = frame(from, &mut state)?;
    let nonce = frame(from, &mut nonce)?;
    let data = frame(from, &mut data)?;
    let text = frame(from, &mut text)?;
    let tag = frame(from, &mut tag)?;
    let answer = frame(from, &mut answer)?;
    Ok(stored::agrees_under(state, way[0] == 1, nonce, data, text, tag, answer))
}

// Runs the next entry of a list of calls on spill files.
fn next_file<R: Read>(from: &mut R) -> Result<bool, Cut> {
    let mut way = [0u8; 1];
    let mut state = [0u8; 728];
    let mut buffer = [0u8; FILE_ROOM];
    let mut file = [0u8; 8];
    let mut row = [0u8; 8];
    let mut tenant = [0u8; 4];
    let mut nonce = [0u8; 64];
    let mut text = [0u8; FILE_ROOM];
    let mut answer = [0u8; FILE_ROOM];
    frame(from, &mut way)?;
    let state = frame(from, &mut state)?;
    let buffer = frame(from, &mut buffer)?;
    frame(from, &mut file)?;
    frame(from, &mut row)?;
    frame(from, &mut tenant)?;
    let nonce = frame(from, &mut nonce)?;
    let text = frame(from, &mut text)?;
    let answer = frame(from, &mut answer)?;
    let file = usize::from_le_bytes(file);
    let row = usize::from_le_bytes(row);
    let tenant = u32::from_le_bytes(tenant);
    if way[0] == 1 {
        return Ok(stored::agrees_add(state, buffer, file, nonce, tenant, text, answer));
    }
    Ok(stored::agrees_read(state, buffer, file, row, tenant, text, answer))
}

// The file has no more bytes.
fn ended(from: &mut impl Read) -> bool {
    let mut byte = [0u8; 1];
    from.read_exact(&mut byte).is_err()
}

// Runs the entries that follow the mark of a list, each by next. Out of line: in one function the buffers of two kinds of entries would take stack together.
#[inline(never)]
fn run_entries<R: Read, F: Fn(&mut R) -> Result<bool, Cut>>(from: &mut R, next: F) -> Tally
    requires { F.IsAlwaysCallable next }
{
    let entries = number(from).unwrap_or(0);
    let mut tally = Tally {
        entries,
        agreed: 0,
        wrong: None,
        whole: false,
    };
    for i in 0..entries {
        match next(from) {
            Err(Cut) => return tally,
            Ok(true) => tally.agreed += 1,
            Ok(false) => tally.wrong = tally.wrong.or(Some(i + 1)),
        }
    }
    tally.whole = ended(from);
    tally
}

// Runs a list; none where it does not start as a list does.
pub fn run<R: Read>(from: &mut R) -> Option<Tally> {
    let mut mark = [0u8; 8];
    from.read_exact(&mut mark).ok()?;
    match &mark {
        b"OCBLIST2" => Some(run_entries(from, next_case)),
        b"OCBSTAT1" => Some(run_entries(from, next_call)),
        b"OCBSPIL1" => Some(run_entries(from, next_file)),
        _ => None,
    }
}
