// Trying every assignment. An assignment is a number whose digits to the base 2^p are the words' values, word 0 the last of them.
ghost use Rattle.std.specs.Prelude.{◌<◌};

use crate::page::{self, Constraint, Sheet};
use sheet::Kind;

// The bit of an assignment at which word x begins: 12 or less at widths up to 3, and never beyond the last bit of a number.
fn place(width: u8, x: u8) -> u32
    ensures { result < 64 }
{
    (u32::from(width) * u32::from(x)).min(63)
}

// The values of the four words.
pub fn values(assignment: u32, width: u8) -> [u32; 4] {
    [0, 1, 2, 3].map(|x| assignment.unbounded_shr(place(width, x)) & page::greatest(width))
}

// How many assignments the words of a sheet have.
pub fn count(sheet: &Sheet) -> usize {
    1 << place(sheet.width, sheet.words)
}

// The most assignments, by the widths and words that are drawn.
const MOST: usize = 4096;

// Whether something holds, for each assignment.
#[derive(Drop)]
struct Map<'a> {
    width: u8,
    holds: &'a mut [bool],
}

impl<'a> Map<'a> {
    // Where a sheet holds, unless it has more assignments than there is room for.
    fn new(sheet: &Sheet, room: &'a mut [bool]) -> Option<Self> {
        let holds = room.get_mut(..count(sheet))?;
        holds.fill(true);
        let mut map = Map {
            width: sheet.width,
            holds,
        };
        for c in &sheet.constraints {
            map.keep(c);
        }
        Some(map)
    }

    // Keeps the assignments at which a constraint holds. Its kind, which says whether the left side may be below the right one, equal
    // to it or above it, is asked for before the loop and not in it, so that several assignments are tried at once.
    fn keep(&mut self, c: &Constraint) {
        let (below, equal, above) = match c.kind {
            Kind::Equal => (false, true, false),
            Kind::Different => (true, false, true),
            Kind::AtMost => (true, true, false),
            Kind::Below | Kind::Unknown(_) => (true, false, false),
        };
        let width = self.width;
        let most = page::greatest(width);
        for (holds, a) in self.holds.iter_mut().zip(0..u32::MAX) {
            let values = values(a, width);
            let left = c.left.value(&values) & most;
            let right = c.right.value(&values) & most;
            *holds &= (below & (left < right))
                | (equal & (left == right))
                | (above & (left > right));
        }
    }

    // Where it holds with some value of the word x.
    fn hide(&mut self, x: u8) {
        let first = place(self.width, x);
        for bit in 0..u32::from(self.width) {
            self.hide_bit(first + bit);
        }
    }

    // Where it holds with this bit or without it.
    fn hide_bit(&mut self, bit: u32) {
        let half = 1usize.unbounded_shl(bit);
        for block in self.holds.chunks_mut(half.saturating_mul(2).max(1)) {
            if let Some((without, with)) = block.split_at_mut_checked(half) {
                for (a, b) in without.iter_mut().zip(with) {
                    let some = *a | *b;
                    *a = some;
                    *b = some;
                }
            }
        }
    }

    // Where a sheet holds with some values of the hidden words.
    fn projection(sheet: &Sheet, hidden: &[u8], room: &'a mut [bool]) -> Option<Self> {
        let mut map = Map::new(sheet, room)?;
        for x in hidden {
            map.hide(*x);
        }
        Some(map)
    }

    // Whether two maps say the same. There is no end at the first difference, so that many assignments are compared at once.
    fn agrees(&self, other: &Map) -> bool {
        let alike = self.width == other.width && self.holds.len() == other.holds.len();
        let differ = self
            .holds
            .iter()
            .zip(other.holds.iter())
            .fold(false, |differ, (a, b)| differ | (*a ^ *b));
        alike && !differ
    }
}

// Whether two sheets hold at the same assignments, each with some values of the words that are hidden from it, if there is room for
// all assignments.
pub fn alike(one: &Sheet, hidden: &[u8], other: &Sheet, hidden_too: &[u8]) -> Option<bool> {
    let mut room = [false; MOST];
    let mut room_too = [false; MOST];
    let map = Map::projection(one, hidden, &mut room)?;
    let map_too = Map::projection(other, hidden_too, &mut room_too)?;
    Some(map.agrees(&map_too))
}
