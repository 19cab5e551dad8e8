// A sheet handed to `hide`, and its answer held against trying every assignment.
use crate::draw::Draw;
use crate::every;
use crate::page::{Bytes, Sheet, Words};
use crate::tally::Tally;
use arrayvec::ArrayVec;
use hide::Fate;

// What the buffers hold before a call.
const UNTOUCHED: u8 = 170;

// A listed word and its fate.
#[derive(Clone, Copy, PartialEq, Eq)]
pub struct Listed {
    pub word: u8,
    pub fate: Fate,
}

// What stands in the unused places of a vector.
impl Default for Listed {
    fn default() -> Self {
        Listed {
            word: 0,
            fate: Fate::Left,
        }
    }
}

// The listed words with their fates.
pub type Fates = ArrayVec<Listed, 4>;

// What an accepted call answered: a sheet in bytes, the listed words with their fates, and the number of walks.
#[derive(Drop)]
pub struct Heard {
    pub sheet: Bytes,
    pub fates: Fates,
    pub walks: usize,
}

impl Heard {
    // Whether another call answered the same.
    pub fn is(&self, other: &Heard) -> bool {
        self.sheet == other.sheet && self.fates.iter().eq(&other.fates) && self.walks == other.walks
    }

    // The listed words whose fates pass a test. There is room for all that are listed.
    pub fn words<Test: Fn(Fate) -> bool>(&self, test: Test) -> Option<Words>
        requires { Test.IsAlwaysCallable test }
    {
        let mut words = Words::new();
        for listed in &self.fates {
            if test(listed.fate) {
                words.try_push(listed.word).ok()?;
            }
        }
        Some(words)
    }

    // The answer to a sheet as a sheet itself, if its bytes are those of one with the same width and words, with numbers below 2^p,
    // and with no more constraints than the sheet has and an equality for each word.
    pub fn answer(&self, sheet: &Sheet) -> Option<Sheet> {
        let answer = Sheet::from_bytes(&self.sheet)?;
        let most = sheet
            .constraints
            .len()
            .saturating_add(usize::from(sheet.words));
        let alike = answer.width == sheet.width && answer.words == sheet.words;
        let few = answer.constraints.len() <= most;
        if alike && few && answer.fits() && answer.to_bytes()? == self.sheet {
            Some(answer)
        } else {
            None
        }
    }

    // Whether the answer stays as it is when it is handed in again, to hide the words that were left.
    fn stays(&self, answer: &Sheet) -> Option<bool> {
        let left = self.words(|fate| fate == Fate::Left)?;
        let again = call(answer, &left)?;
        Some(
            again.sheet == self.sheet && again.fates.iter().all(|listed| listed.fate == Fate::Left),
        )
    }

    // Whether no constraint of the answer has a word that is hidden.
    fn lacks_hidden(&self, answer: &Sheet) -> bool {
        self.fates.iter().all(|listed| listed.fate == Fate::Left || answer.lacks(listed.word))
    }

    // Whether the answer holds exactly where the sheet holds with some values of the hidden words.
    fn is_exact(&self, sheet: &Sheet, answer: &Sheet) -> Option<bool> {
        let hidden = self.words(|fate| fate != Fate::Left)?;
        every::alike(sheet, &hidden, answer, &[])
    }
}

// The first bytes of a buffer, if none behind them was written. There is no end at the first that was, so that many are looked at
// at once.
fn front(buffer: &[u8], length: usize) -> Option<&[u8]> {
    let (front, beyond) = buffer.split_at_checked(length)?;
    let written = beyond
        .iter()
        .fold(false, |written, b| written | (*b != UNTOUCHED));
    if written { None } else { Some(front) }
}

// The words of a list with their fates, if each byte is a fate.
fn fates(list: &[u8], bytes: &[u8]) -> Option<Fates> {
    let mut fates = Fates::new();
    for (word, byte) in list.iter().zip(bytes) {
        let listed = Listed {
            word: *word,
            fate: Fate::try_from(*byte).ok()?,
        };
        fates.try_push(listed).ok()?;
    }
    Some(fates)
}

// Hands in a sheet and a list. `None` stands for a refusal, for a byte that was written behind the answer or the fates, and for a
// fate that is none of the four.
pub fn call(sheet: &Sheet, list: &[u8]) -> Option<Heard> {
    let mut out = [UNTOUCHED; 2048];
    let mut bytes = [UNTOUCHED; 8];
    let answer = hide::hide(&sheet.to_bytes()?, list, &mut out, &mut bytes).ok()?;
    Some(Heard {
        sheet: Bytes::try_from(front(&out, answer.length)?).ok()?,
        fates: fates(list, front(&bytes, list.len())?)?,
        walks: answer.walks,
    })
}

// Draws a sheet and a list, tries them, and answers whether all is as it must be. `None` stands for a call that came to nothing.
pub fn sheet(draw: &mut Draw, tally: &mut Tally) -> Option<bool> {
    let shape = draw.shape(7);
    let mixture = draw.mixture();
    let sheet = draw.sheet(shape, &mixture)?;
    let list = draw.list(sheet.words)?;
    tally.add_sheet(&sheet);
    let heard = call(&sheet, &list)?;
    let answer = heard.answer(&sheet)?;
    tally.add_answer(&heard, &answer);
    Some(
        heard.walks <= list.len()
            && heard.stays(&answer)?
            && heard.lacks_hidden(&answer)
            && heard.is_exact(&sheet, &answer)?,
    )
}
