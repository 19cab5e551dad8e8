// The call in numbers, as other languages have it. `hide_c` exports it to them.
ghost use Rattle.std.specs.Prelude.{◌≡◌};
ghost use Rattle.meaning.specs.Outcome.{Outcome, outcome};
ghost use Rattle.sheet.specs.Bytes.{number_of};

use crate::call;
use sheet::Refusal;

// The answer in numbers: the refusal's number or 0, the answer's length, the number of walks.
#[repr(C)]
#[derive(Clone, Copy)]
pub struct Numbers {
    pub refused: u64,
    pub length: u64,
    pub walks: u64,
}

// The number of a row of the table, as a function.
pub fn number_of(r: Refusal) -> u64
    ensures { result ≡ number_of r }
{
    r as u64
}

// Hides the listed words of a sheet, as `hide` does, and answers in numbers.
pub fn vietoluyn_hide(sheet: &[u8], list: &[u8], out: &mut [u8], fates: &mut [u8]) -> Numbers
    ensures { ◌≡◌ {A = Outcome} (record { refused = result.refused; size = result.length; walks = result.walks; out = out.new; fates = fates.new }) (outcome (record { sheet = sheet.now; list = list.now; out = out.old; fates = fates.old })) }
{
    match call::hide(sheet, list, out, fates) {
        Ok(answer) => Numbers {
            refused: 0,
            length: answer.length as u64,
            walks: answer.walks as u64,
        },
        Err(why) => Numbers {
            refused: number_of(why),
            length: 0,
            walks: 0,
        },
    }
}
