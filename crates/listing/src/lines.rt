// The lines of a listing, written one after the other into the buffer that is lent. Each function writes from a place on, and answers
// the place after what it wrote; where the length depends on numbers, it also says how far that may reach.
ghost use Rattle.std.specs.Prelude.{◌≡◌, [], ◌∷◌, ◌+◌, ◌*◌, ◌≤◌, length};
ghost use Rattle.meaning.specs.Bytes.{stride, size_of, numbers_at, constraint_at, constraints_at, sheet_in};
ghost use Rattle.meaning.specs.Listing.{decimal, numbers_text, kind_name, constraint_line, constraint_lines, head_line};
ghost use Rattle.meaning.specs.Listing.{fate_name, fate_line, fate_lines, listing, refused_text};
ghost use Rattle.sheet.specs.Bytes.{number_of};
ghost use Rattle.listing.specs.Text.{Wrote, Fits};

use hide::Fate;
use itoa::Buffer;
use sheet::{Kind, Refusal, byte_at, number_at, place};

// The bytes of a text.
#[tactic(auto, using(sheet::proofs::Writing::put_written))]
fn put_text(out: &mut [u8], at: usize, text: &str) -> usize
    requires { at + length text.now ≤ length out.old }
    ensures { Wrote out.old at text.now out.new result }
{
    let past = at + text.len();
    out[at..past].copy_from_slice(text.as_bytes());
    past
}

// x in decimal. (Most numbers of a sheet have one digit, and writing it costs less than to copy a text of any length out of the
// library's buffer.)
fn put_decimal(out: &mut [u8], at: usize, x: u32) -> usize
    requires { at + 10 ≤ length out.old }
    ensures wrote { Wrote out.old at (decimal x) out.new result }
    ensures within { result ≤ at + 10 }
{
    if x < 10 {
        out[at] = b'0' + x as u8;
        return at + 1;
    }
    put_text(out, at, Buffer::new().format(x))
}

// A space and x in decimal.
fn put_number(out: &mut [u8], at: usize, x: u32) -> usize
    requires { at + 11 ≤ length out.old }
    ensures wrote { Wrote out.old at (numbers_text (x ∷ [])) out.new result }
    ensures within { result ≤ at + 11 }
{
    let past = put_text(out, at, " ");
    put_decimal(out, past, x)
}

// The k numbers from place i of b on, each after a space.
fn put_numbers(out: &mut [u8], at: usize, b: &[u8], i: usize, k: usize) -> usize
    requires { (k ≤ 17) × (i + 4 * k ≤ length b.now) × (at + 11 * k ≤ length out.old) }
    ensures wrote { Wrote out.old at (numbers_text (numbers_at b.now i k)) out.new result }
    ensures within { result ≤ at + 11 * k }
{
    let mut past = at;
    for j in 0..k {
        past = put_number(out, past, number_at(b, i + 4 * j));
    }
    past
}

// The name of a kind, and nothing for a byte that stands for none.
#[tactic(auto, using(crate::proofs::Texts::kind_none), unfolding(meaning::specs::Listing::kind_name))]
fn kind_name(kind: u8) -> &'static str
    ensures name { result.now ≡ kind_name kind }
    ensures short { length result.now ≤ 2 }
{
    match Kind::try_from(kind) {
        Ok(Kind::Equal) => "eq",
        Ok(Kind::Different) => "ne",
        Ok(Kind::AtMost) => "le",
        Ok(Kind::Below) => "lt",
        Ok(Kind::Unknown(_)) | Err(_) => "",
    }
}

// The line of the constraint of n words from place i of b on.
fn put_constraint(out: &mut [u8], at: usize, b: &[u8], n: usize, i: usize) -> usize
    requires { (n ≤ 16) × (i + stride n ≤ length b.now) × (at + 379 ≤ length out.old) }
    ensures wrote { Wrote out.old at (constraint_line n (constraint_at b.now n i)) out.new result }
    ensures within { result ≤ at + 379 }
{
    let k = n + 1;
    let kind = put_text(out, at, kind_name(byte_at(b, i)));
    let left = put_numbers(out, kind, b, i + 1, k);
    let bar = put_text(out, left, " |");
    let right = put_numbers(out, bar, b, i + 1 + 4 * k, k);
    put_text(out, right, "\n")
}

// The lines of the m constraints of n words that a sheet has.
fn put_constraints(out: &mut [u8], at: usize, b: &[u8], n: usize, m: usize) -> usize
    requires { (n ≤ 16) × (m ≤ 64) × (size_of n m ≤ length b.now) × (at + 379 * m ≤ length out.old) }
    ensures wrote { Wrote out.old at (constraint_lines n (constraints_at b.now n 8 m)) out.new result }
    ensures within { result ≤ at + 379 * m }
{
    let mut past = at;
    for i in 0..m {
        past = put_constraint(out, past, b, n, place(n, i));
    }
    past
}

// The first line.
fn put_head(out: &mut [u8], p: u8, n: u8, m: u8) -> usize
    requires { 39 ≤ length out.old }
    ensures wrote { Wrote out.old 0 (head_line p n m) out.new result }
    ensures within { result ≤ 39 }
{
    let name = put_text(out, 0, "sheet");
    let width = put_number(out, name, p as u32);
    let words = put_number(out, width, n as u32);
    let constraints = put_number(out, words, m as u32);
    put_text(out, constraints, "\n")
}

// The name of a fate, and nothing for a byte that stands for none. (Kinds and fates are two types; a listing takes any bytes for them.)
#[tactic(auto, using(crate::proofs::Texts::fate_none), unfolding(meaning::specs::Listing::fate_name))]
fn fate_name(fate: u8) -> &'static str
    ensures name { result.now ≡ fate_name fate }
    ensures short { length result.now ≤ 6 }
{
    match Fate::try_from(fate) {
        Ok(Fate::Left) => "left",
        Ok(Fate::Absent) => "absent",
        Ok(Fate::Layer1) => "layer1",
        Ok(Fate::Layer2) => "layer2",
        Err(_) => "",
    }
}

// The line of the word x with its fate.
fn put_fate(out: &mut [u8], at: usize, x: u8, fate: u8) -> usize
    requires { at + 23 ≤ length out.old }
    ensures wrote { Wrote out.old at (fate_line x fate) out.new result }
    ensures within { result ≤ at + 23 }
{
    let name = put_text(out, at, "fate");
    let word = put_number(out, name, x as u32);
    let space = put_text(out, word, " ");
    let said = put_text(out, space, fate_name(fate));
    put_text(out, said, "\n")
}

// The lines of the listed words.
fn put_fates(out: &mut [u8], at: usize, list: &[u8], fates: &[u8]) -> usize
    requires { (length list.now ≤ length fates.now) × (at + 23 * length list.now ≤ length out.old) }
    ensures { Wrote out.old at (fate_lines list.now fates.now) out.new result }
{
    let mut past = at;
    for (x, fate) in list.iter().zip(fates) {
        past = put_fate(out, past, *x, *fate);
    }
    past
}

// The three parts of a listing.
pub fn put_answer(out: &mut [u8], answer: &[u8], list: &[u8], fates: &[u8]) -> usize
    requires { Fits answer.now list.now fates.now × (32768 ≤ length out.old) }
    ensures { Wrote out.old 0 (listing (sheet_in answer.now) list.now fates.now) out.new result }
{
    let n = byte_at(answer, 6);
    let m = byte_at(answer, 7);
    let head = put_head(out, byte_at(answer, 5), n, m);
    let constraints = put_constraints(out, head, answer, n as usize, m as usize);
    put_fates(out, constraints, list, fates)
}

// The line of a refusal.
pub fn put_refusal(out: &mut [u8], why: Refusal) -> usize
    requires { 32768 ≤ length out.old }
    ensures { Wrote out.old 0 (refused_text (number_of why)) out.new result }
{
    let name = put_text(out, 0, "refused");
    let number = put_number(out, name, hide::number_of(why) as u32);
    put_text(out, number, "\n")
}
