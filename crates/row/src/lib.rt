// Rows: the seventeen numbers of a term, by value, and the rows of flat blocks that a caller lends. (A word is a plain number, whose bound
// stands in the clauses, here and above: it is used at once as an index. So is the number of a row, in a block of any length.)
#![tactic(auto)]

ghost use Rattle.std.specs.Prelude.{◌≡◌, ◌+◌, ◌*◌, ◌≤◌, ◌<◌, length};
ghost use Rattle.meaning.specs.Lists.{same};
ghost use Rattle.meaning.specs.Number.{kappa};
ghost use Rattle.meaning.specs.Row.{coefficient, zero_row, less, scale, unit, wordless};
ghost use Rattle.row.specs.Block.{row_of, put_row};

// The words of a row; its constant comes after them.
pub const WORDS: usize = 16;

// The numbers of a row.
pub const NUMBERS: usize = 17;

#[derive(Clone, Copy, Debug, Default, PartialEq, Eq)]
pub struct Row {
    pub w: [u32; NUMBERS],
}

// The term 0.
pub fn zero() -> Row
    ensures { result.w ≡ zero_row }
{
    Row { w: [0u32; NUMBERS] }
}

// A lent row, less q times s. (By its places: under `iter_mut().zip(..)` no invariant can name what was written.)
fn subtract(r: &mut [u32], q: u32, s: &Row, p: u32)
    requires { (length r.old ≡ 17) × (p ≤ 32) }
    ensures { r.new ≡ less p q s.now.w r.old }
{
    for i in 0..NUMBERS {
        r[i] = word::less(r[i], q, s.w[i], p);
    }
}

// r less q times s.
pub fn less(r: Row, q: u32, s: Row, p: u32) -> Row
    requires { p ≤ 32 }
    ensures { result.w ≡ less p q s.w r.w }
{
    let mut w = r.w;
    subtract(&mut w, q, &s, p);
    Row { w }
}

// q times r.
pub fn scale(q: u32, r: Row, p: u32) -> Row
    requires { p ≤ 32 }
    ensures { result.w ≡ scale p q r.w }
{
    let mut w = r.w;
    for x in w.iter_mut() {
        *x = word::times(q, *x, p);
    }
    Row { w }
}

// Whether r has no word.
pub fn wordless(r: Row) -> bool
    ensures { result ≡ wordless r.w }
{
    r.w[..WORDS].iter().all(|c| *c == 0)
}

// Whether the two are the same row. (The derived `==`, promised in the words of the definitions.)
pub fn equal(r: Row, s: Row) -> bool
    ensures { result ≡ same r.w s.w }
{
    r == s
}

// Row i of a block.
pub fn row_of(rows: &[u32], i: usize) -> Row
    requires { (i + 1) * 17 ≤ length rows.now }
    ensures { result.w ≡ row_of rows.now i }
{
    // A copy of slices would put the row on the stack.
    let from = i * NUMBERS;
    let mut w = [0u32; NUMBERS];
    for k in 0..NUMBERS {
        w[k] = rows[from + k];
    }
    Row { w }
}

// r in the place of row i.
pub fn put_row(rows: &mut [u32], i: usize, r: Row)
    requires { (i + 1) * 17 ≤ length rows.old }
    ensures { rows.new ≡ put_row rows.old i r.w }
{
    // As in `row_of`, no copy of slices.
    let to = i * NUMBERS;
    for k in 0..NUMBERS {
        rows[to + k] = r.w[k];
    }
}

// Row j less q times s, in its place.
pub fn less_in(rows: &mut [u32], j: usize, q: u32, s: Row, p: u32)
    requires { ((j + 1) * 17 ≤ length rows.old) × (p ≤ 32) }
    ensures { rows.new ≡ put_row rows.old j (less p q s.w (row_of rows.old j)) }
{
    let from = j * NUMBERS;
    subtract(&mut rows[from..from + NUMBERS], q, &s, p);
}

// The number at x of row i.
pub fn at(rows: &[u32], i: usize, x: usize) -> u32
    requires { ((i + 1) * 17 ≤ length rows.now) × (x < 17) }
    ensures { result ≡ coefficient (row_of rows.now i) x }
{
    rows[i * NUMBERS + x]
}

// Row i times the inverse of the odd part of its coefficient of x, which becomes a power of two.
pub fn unit(rows: &[u32], i: usize, x: usize, p: u32) -> Row
    requires { ((i + 1) * 17 ≤ length rows.now) × (p ≤ 32) × (x < 16) × (kappa p (coefficient (row_of rows.now i) x) < p) }
    ensures { result.w ≡ unit p x (row_of rows.now i) }
{
    let c = at(rows, i, x);
    let odd = word::shifted(c, word::kappa(c, p));
    scale(word::inverse(odd, p), row_of(rows, i), p)
}
