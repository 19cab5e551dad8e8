// The program's work: standard input as bytes, and what is printed for them.
ghost use Rattle.std.specs.Prelude.{◌≡◌, true, ◌+◌, min, length};
ghost use Rattle.meaning.specs.Bytes.{count_in};
ghost use Rattle.meaning.specs.Listing.{printed};
ghost use Rattle.listing.specs.Text.{Delivered};

use crate::{MOST, list_answer, list_refusal};
use sheet::{Refusal, Sheet, number_at};

// The room that row 10 asks for where there are sixteen words: an answer of any sheet fits. (A constant cannot call
// `place`.)
const ANSWER: usize = 8 + Sheet::WRITTEN * (1 + 8 * (Sheet::WORDS + 1));

// Where the sheet ends and the list begins: after the bytes that the count says, or, where there are fewer, at the end.
fn sheet_end(input: &[u8]) -> usize
    ensures { result ≡ min (4 + count_in input.now) (length input.now) }
{
    if input.len() < 4 {
        return input.len();
    }
    input.len().min(4 + number_at(input, 0) as usize)
}

// What the program prints for the bytes of its standard input, at the front of `out`: its length. None, with nothing written, where
// `out` is shorter than ROOM.
pub fn list_input(input: &[u8], out: &mut [u8]) -> Option<usize>
    ensures { Delivered true (printed input.now) out.old out.new result }
{
    if MOST < input.len() {
        return list_refusal(Refusal::Count, out);
    }
    let (sheet, list) = input.split_at(sheet_end(input));
    let mut answer = [0; ANSWER];
    let mut fates = [0; Sheet::WORDS];
    match hide::hide(sheet, list, &mut answer, &mut fates) {
        Ok(said) => list_answer(&answer[..said.length], list, &fates, out),
        Err(why) => list_refusal(why, out),
    }
}
