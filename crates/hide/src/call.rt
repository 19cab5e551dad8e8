// The call: bytes in, bytes out.
ghost use Rattle.std.specs.Prelude.{◌≡◌, ◌++◌, ◌≤◌, length, drop};
ghost use Rattle.meaning.specs.Outcome.{outcome, over};
ghost use Rattle.meaning.specs.Refusal.{refusal};
ghost use Rattle.hide.specs.Answer.{outcome_with};
ghost use Rattle.hide.specs.Fate.{fate_numbers};

use crate::{Answer, Fate, walk};
use sheet::{Refusal, Sheet};

// The fates, to the front of their buffer. (By their places: under `iter_mut().zip(..)` no invariant can name what was written.)
fn put_fates(fates: &[Fate], out: &mut [u8])
    requires { length fates.now ≤ length out.old }
    ensures { out.new ≡ over (fate_numbers fates.now) out.old }
{
    for (i, &fate) in fates.iter().enumerate() {
        out[i] = u8::from(fate);
    }
}

// The call on a sheet, a list and buffers that are not refused.
fn hide_accepted(sheet: &[u8], list: &[u8], out: &mut [u8], fates: &mut [u8]) -> Answer
    requires { refusal (record { sheet = sheet.now; list = list.now; out = out.old; fates = fates.old }) ≡ 0 }
    ensures { outcome_with (Ok result) out.new fates.new ≡ outcome (record { sheet = sheet.now; list = list.now; out = out.old; fates = fates.old }) }
{
    let mut s = Sheet::read(sheet);
    tidy::tidy_in(&mut s);
    let mut found = [Fate::Left; Sheet::WORDS];
    let found = &mut found[..list.len()];
    let walks = walk::walks(&mut s, list, found);
    let length = s.write(out);
    put_fates(found, fates);
    Answer { length, walks }
}

// Hides the listed words of a sheet: the answer at the front of `out`, a fate for each listed word at the front of `fates`. A
// refusal changes neither.
pub fn hide(sheet: &[u8], list: &[u8], out: &mut [u8], fates: &mut [u8]) -> Result<Answer, Refusal>
    ensures { outcome_with result out.new fates.new ≡ outcome (record { sheet = sheet.now; list = list.now; out = out.old; fates = fates.old }) }
{
    sheet::judge_call(sheet, list, out, fates)?;
    Ok(hide_accepted(sheet, list, out, fates))
}
