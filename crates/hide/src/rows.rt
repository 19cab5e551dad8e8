// Rows tidied alone, for benchmarks. `hide_c` exports it.
ghost use Rattle.std.specs.Prelude.{◌≡◌, ◌^◌, ◌≤◌, leb};
ghost use Rattle.meaning.specs.Lists.{any_of};
ghost use Rattle.hide.specs.Alone.{bad_rows, Tidied, tidied_rows};

use sheet::Sheet;

// Whether one of the numbers is 2^p or more. All are looked at, so that the loop runs on vectors.
fn too_large(numbers: &[u32], p: u32) -> bool
    requires { p ≤ 32 }
    ensures { result ≡ any_of (leb (2 ^ p)) numbers.now }
{
    let top = word::low((1u64 << p) - 1);
    let mut found = false;
    for &x in numbers {
        found |= top < x;
    }
    found
}

// Whether the rows are none to tidy: a block of 544 numbers whose first rows, at most 32, are of a width from 1 to 32.
#[tactic(auto, unfolding(crate::specs::Alone::bad_rows))]
fn bad_rows(rows: &[u32], eqs: u64, p: u32) -> bool
    ensures { result ≡ bad_rows rows.now eqs p }
{
    rows.len() != Sheet::EACH * row::NUMBERS
        || eqs > Sheet::EACH as u64
        || p == 0
        || Sheet::MOST_WIDTH < p
        || too_large(&rows[..eqs as usize * row::NUMBERS], p)
}

// Tidies the first `eqs` rows of a block, of width p, as equalities without others: the answer is how many they are then, and
// they stand at its front. Where they are none to tidy it is 255, and nothing changes. (The C interface has it so.)
pub fn vietoluyn_tidy(rows: &mut [u32], eqs: u64, p: u32) -> u64
    ensures { ◌≡◌ {A = Tidied} (record { answer = result; rows = rows.new }) (tidied_rows rows.old eqs p) }
{
    if bad_rows(rows, eqs, p) {
        return 255;
    }
    let mut s = Sheet::new(p, Sheet::WORDS, true);
    s.equalities.rows.copy_from_slice(rows);
    s.equalities.count = eqs as usize;
    tidy::tidy_in(&mut s);
    let m = s.equalities.count * row::NUMBERS;
    rows[..m].copy_from_slice(&s.equalities.rows[..m]);
    s.equalities.count as u64
}
