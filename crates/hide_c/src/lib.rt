// The library for other languages: the two functions of include/vietoluyn.h, which are `hide`'s. A slice crosses as a pointer and a
// length, and the answer as a struct of three numbers.
#![tactic(auto)]

ghost use Rattle.std.specs.Prelude.{◌≡◌};
ghost use Rattle.meaning.specs.Outcome.{Outcome, outcome};
ghost use Rattle.hide.specs.Alone.{Tidied, tidied_rows};

use hide::Numbers;

// Hides the listed words of a sheet, as `hide` does, and answers in numbers.
#[unsafe(no_mangle)]
pub extern "C" fn vietoluyn_hide(
    sheet: &[u8],
    list: &[u8],
    out: &mut [u8],
    fates: &mut [u8],
) -> Numbers
    ensures { ◌≡◌ {A = Outcome} (record { refused = result.refused; size = result.length; walks = result.walks; out = out.new; fates = fates.new }) (outcome (record { sheet = sheet.now; list = list.now; out = out.old; fates = fates.old })) }
{
    hide::vietoluyn_hide(sheet, list, out, fates)
}

// Tidies the first `eqs` rows of a block, of width p, as equalities without others: the answer is how many they are then, and
// they stand at its front. Where they are none to tidy it is 255, and nothing changes.
#[unsafe(no_mangle)]
pub extern "C" fn vietoluyn_tidy(rows: &mut [u32], eqs: u64, p: u32) -> u64
    ensures { ◌≡◌ {A = Tidied} (record { answer = result; rows = rows.new }) (tidied_rows rows.old eqs p) }
{
    hide::vietoluyn_tidy(rows, eqs, p)
}
