// The refusal of a call: the first row of its table that applies. Each test goes over the bytes front to back.
ghost use Rattle.std.specs.Prelude.{◌≡◌, ◌+◌, ◌*◌, ◌≤◌, length, IfOk};
ghost use Rattle.meaning.specs.Bytes.{size_of, sheet_in};
ghost use Rattle.meaning.specs.Refusal.{bad_count, bad_size, bad_kind, bad_number, equal_count, too_many, bad_list};
ghost use Rattle.meaning.specs.Refusal.{first_in, head_rows, body_rows, sheet_rows, call_rows, refusal};
ghost use Rattle.sheet.specs.Bytes.{number_in, too_large_from};
ghost use Rattle.sheet.specs.Head.{IsHead};

use crate::reader::{byte_at, number_at};
use crate::{Kind, Refusal, Sheet};

// A sheet's bytes whose head passes, with the width, the number of words and the number of constraints that it says.
#[derive(Drop)]
struct Head<'a> {
    bytes: &'a [u8],
    width: u32,
    words: usize,
    constraints: usize,
    ghost is: { IsHead bytes.now width words constraints },
}

// Where constraint i of a sheet of n words begins: where the one before it ends.
pub fn place(n: usize, i: usize) -> usize
    requires { (n ≤ 255) × (i ≤ 255) }
    ensures { result ≡ size_of n i }
{
    8 + i * (1 + 8 * (n + 1))
}

// Row 1.
fn bad_count(b: &[u8]) -> bool
    ensures { result ≡ bad_count b.now }
{
    b.len() < 8 || number_at(b, 0) as usize != b.len() - 4
}

// Row 5.
fn bad_size(n: usize, m: usize, size: usize) -> bool
    requires { (n ≤ 255) × (m ≤ 255) }
    ensures { result ≡ bad_size n m size }
{
    Sheet::READ < m || size != place(n, m)
}

// Rows 1 to 5: the head, where none applies.
fn judge_head(b: &[u8]) -> Result<Head, Refusal>
    ensures number { number_in result ≡ first_in (head_rows b.now) }
    ensures bytes { IfOk result (λ h. h.bytes.now ≡ b.now) }
{
    if bad_count(b) {
        return Err(Refusal::Count);
    }
    if byte_at(b, 4) != 1 {
        return Err(Refusal::Version);
    }
    let width = byte_at(b, 5) as u32;
    if width == 0 || Sheet::MOST_WIDTH < width {
        return Err(Refusal::Width);
    }
    let words = byte_at(b, 6) as usize;
    if words == 0 || Sheet::WORDS < words {
        return Err(Refusal::Words);
    }
    let constraints = byte_at(b, 7) as usize;
    if bad_size(words, constraints, b.len()) {
        return Err(Refusal::Size);
    }
    Ok(Head {
        bytes: b,
        width,
        words,
        constraints,
    })
}

// Whether one of the k numbers from i on is 2^p or more.
fn too_large(b: &[u8], i: usize, k: usize, p: u32) -> bool
    requires { (p ≤ 32) × (k ≤ 34) × (i + 4 * k ≤ length b.now) }
    ensures { result ≡ too_large_from p b.now i k }
{
    for j in 0..k {
        if 1u64 << p <= number_at(b, i + 4 * j) as u64 {
            return true;
        }
    }
    false
}

impl<'a> Head<'a> {
    // Row 6. (A loop, as in rows 7 and 8: chains of iterators took a quarter more instructions.)
    fn bad_kind(&self) -> bool
        ensures { result ≡ bad_kind (sheet_in self.now.bytes.now).constraints }
    {
        for i in 0..self.constraints {
            if Kind::try_from(byte_at(self.bytes, place(self.words, i))).is_err() {
                return true;
            }
        }
        false
    }

    // Row 7.
    fn bad_number(&self) -> bool
        ensures { result ≡ bad_number self.now.width (sheet_in self.now.bytes.now).constraints }
    {
        let n = self.words;
        for i in 0..self.constraints {
            if too_large(self.bytes, place(n, i) + 1, 2 * (n + 1), self.width) {
                return true;
            }
        }
        false
    }

    // How many of the constraints are equalities.
    fn equal_count(&self) -> usize
        ensures count { result ≡ equal_count (sheet_in self.now.bytes.now).constraints }
        ensures most { result ≤ self.now.constraints }
    {
        let mut e = 0;
        for i in 0..self.constraints {
            if byte_at(self.bytes, place(self.words, i)) == u8::from(Kind::Equal) {
                e += 1;
            }
        }
        e
    }

    // Row 8.
    fn too_many(&self) -> bool
        ensures { result ≡ too_many (sheet_in self.now.bytes.now).constraints }
    {
        let e = self.equal_count();
        Sheet::EACH < e || Sheet::EACH < self.constraints - e
    }

    // Rows 6 to 8, where none of the rows before applies.
    fn judge(&self) -> Result<(), Refusal>
        ensures { number_in result ≡ first_in (body_rows (sheet_in self.now.bytes.now)) }
    {
        if self.bad_kind() {
            return Err(Refusal::Kind);
        }
        if self.bad_number() {
            return Err(Refusal::Number);
        }
        if self.too_many() {
            return Err(Refusal::TooMany);
        }
        Ok(())
    }
}

// Rows 1 to 8: the tests of a sheet's bytes.
pub fn judge_sheet(b: &[u8]) -> Result<(), Refusal>
    ensures { number_in result ≡ first_in (sheet_rows b.now) }
{
    judge_head(b)?.judge()
}

// Row 9. A list that repeats no word below n is no longer than n, so a long one is judged by its front.
fn bad_list(list: &[u8], n: usize) -> bool
    ensures { result ≡ bad_list n list.now }
{
    for (i, x) in list.iter().enumerate() {
        if n <= *x as usize || list[i + 1..].contains(x) {
            return true;
        }
    }
    false
}

// Rows 9 to 11, of a sheet of n words.
fn judge_rest(list: &[u8], n: usize, out: &[u8], fates: &[u8]) -> Result<(), Refusal>
    requires { n ≤ 16 }
    ensures { number_in result ≡ first_in (call_rows n list.now out.now fates.now) }
{
    if bad_list(list, n) {
        return Err(Refusal::List);
    }
    if out.len() < place(n, Sheet::WRITTEN) {
        return Err(Refusal::SheetBuffer);
    }
    if fates.len() < list.len() {
        return Err(Refusal::FateBuffer);
    }
    Ok(())
}

// The whole table of a call.
pub fn judge_call(sheet: &[u8], list: &[u8], out: &[u8], fates: &[u8]) -> Result<(), Refusal>
    ensures { number_in result ≡ refusal (record { sheet = sheet.now; list = list.now; out = out.now; fates = fates.now }) }
{
    judge_sheet(sheet)?;
    judge_rest(list, byte_at(sheet, 6) as usize, out, fates)
}
