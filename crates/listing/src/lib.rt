// The listing: the answer of a call as text, written into a buffer that the caller lends.
//
// `list_input` is the program's whole work, from the bytes of its standard input to the text; `list_answer` and `list_refusal` are
// the two kinds of text alone. Nothing is asked of their callers.
#![tactic(auto)]

mod input;
mod lines;

ghost use Rattle.std.specs.Prelude.{◌≡◌, true};
ghost use Rattle.meaning.specs.Bytes.{sheet_in};
ghost use Rattle.meaning.specs.Listing.{listing, refused_text};
ghost use Rattle.sheet.specs.Bytes.{number_of};
ghost use Rattle.listing.specs.Text.{listable, Delivered};

pub use input::list_input;
use lines::{put_answer, put_refusal};
use sheet::{Refusal, Sheet, byte_at, place};

// The most bytes of standard input that are taken for a sheet and a list.
pub const MOST: usize = 16384;

// The length of a buffer that has room for any listing.
pub const ROOM: usize = 32768;

// The text of a refusal at the front of `out`: its length. None, with nothing written, where `out` is shorter than ROOM.
pub fn list_refusal(why: Refusal, out: &mut [u8]) -> Option<usize>
    ensures { Delivered true (refused_text (number_of why)) out.old out.new result }
{
    if out.len() < ROOM {
        return None;
    }
    Some(put_refusal(out, why))
}

// Whether there is an answer to list: bytes of the size that the formula says, within the limits, and a fate for each listed word.
#[tactic(auto, unfolding(crate::specs::Text::listable))]
fn listable(answer: &[u8], list: &[u8], fates: &[u8]) -> bool
    ensures { result ≡ listable answer.now list.now fates.now }
{
    if answer.len() < 8 {
        return false;
    }
    let n = byte_at(answer, 6) as usize;
    let m = byte_at(answer, 7) as usize;
    n <= Sheet::WORDS
        && m <= Sheet::READ
        && answer.len() == place(n, m)
        && list.len() <= Sheet::WORDS
        && list.len() <= fates.len()
}

// The listing of an answer with the list and its fates at the front of `out`: its length. None, with nothing written, where there is
// no answer to list or `out` is shorter than ROOM.
pub fn list_answer(answer: &[u8], list: &[u8], fates: &[u8], out: &mut [u8]) -> Option<usize>
    ensures { Delivered (listable answer.now list.now fates.now) (listing (sheet_in answer.now) list.now fates.now) out.old out.new result }
{
    if out.len() < ROOM {
        return None;
    }
    if listable(answer, list, fates) {
        return Some(put_answer(out, answer, list, fates));
    }
    None
}
