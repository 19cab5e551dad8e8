// Sheets that pin the choices of the rules. The laws say that an answer is sound, and under a stricter reading of a rule
// it is sound too: only an example tells the two apart. Each answer was worked out by hand from the rules, and the comment has the
// steps, [a/b] the whole part of a / b. Behind `not` stand the readings that the sheet catches.
pub const SHEETS: [&str; 47] = [
    // The tidy form.

    // Left less right, 1 − 6 = 3 and −y = 7y. Not right less left, 5x + y + 5; not scaled like an equality, x + 5y + 1.
    "3 | 3x + 1 != y + 6 | 3x + 7y + 3 != 0 | | 0",
    // What has a word stays: x ≤ 7 and 2x + 1 ≠ 0, which every value meets, and x < x, which none does, twice. Not decided by
    // thought; not the second of equals dropped; not 2x = 2 put in while tidying; not the others sorted, nor before the equalities.
    "3 | x < x, 2x = 2, x <= 7, 2x + 1 != 0, x < x, 2x != 4 | 2x + 6 = 0, x < x, x <= 7, 2x + 1 != 0, x < x, 2x + 4 != 0 | | 0",
    // True ones go, x + 1 ≠ x as 1 ≠ 0, and no constraint has x then. Not absent by the input's constraints.
    "3 | 3 <= 3, 2 < 3, 4 = 4, x + 1 != x, z <= 5 | z <= 5 | x: 1 | 1",
    // A false one makes the sheet 1 = 0, which lacks x. Not dropped, which leaves x ≤ 1 to Layer2.
    "3 | 2 < 2, x <= 1 | 1 = 0 | x: 1 | 1",
    // The same for 0 ≠ 0. Not inequalities alone decided.
    "3 | x != x, y <= 1 | 1 = 0 | y: 1 | 1",
    // x − y is 0 and 1: no solution. Not each equality by itself; not y ≤ 3 kept beside 1 = 0.
    "3 | x = y, x = y + 1, y <= 3 | 1 = 0 | y: 1 | 1",
    // Off the first row goes 2y + 2 once, since 2 is not below 2, and 4z once, since 5 is not below 4: x + z − 2. Not left above a
    // lead; not lowered only where greater.
    "3 | x + 2y + 5z = 0, 2y = 6, 4z = 0 | x + z + 6 = 0, 2y + 2 = 0, 4z = 0 | | 0",

    // Layer1, and what it leaves to Layer2.

    // Of κ 0 and 0 the first: 3 × 3 = 1, so z = −3x = 5x, and y + 5x = 0, five times that x + 5y = 0. Not the last, 7y ≤ 3; not
    // only a row that leads with z.
    "3 | x + 3z = 0, y + z = 0, z <= 3 | x + 5y = 0, 5x <= 3 | z: 2 | 1",
    // Of κ 1 and 0 the second: z = 7y, x + 14y = 0. Not the first that has z.
    "3 | x + 2z = 0, y + z = 0, z <= 3 | x + 6y = 0, 7y <= 3 | z: 2 | 1",
    // 6y = 2 × 3y, so 2y = 3 − 3x = 5x + 3, and 4 × (5x + 3) = 4x + 4 = 0, which no other row says. Not the chosen row dropped.
    "3 | x + 6y = 1, 2y <= 3 | 4x + 4 = 0, 5x + 3 <= 3 | y: 2 | 1",
    // 4x = 2 × 2x = 4y on the right, and 4 × 2y = 0. Not left sides alone; not 2^k × x itself alone.
    "3 | 2x = 2y, z <= 4x | z <= 4y | x: 2 | 1",
    // The right side by itself: x ≤ 6, δ = 7, k0 = 1, [7/4] = 1. Not left for x on both sides before; not both sides or none.
    "3 | 2x = 6, x <= 2x | | x: 3 | 1",
    // The left side by itself: 2 ≤ x, δ = 6, [6/4] = 1. Not Layer1, by a look at left sides alone.
    "3 | 2x = 2, 2x <= x | | x: 3 | 1",
    // z is no constant, δ = 0, and the sheet is as before. Not 4y ≤ z, from the failed try.
    "3 | 2x = 2y, 4x <= z, x <= z | 2x + 6y = 0, 4x <= z, x <= z | x: 0 | 1",
    // Only x ≠ z has x after step 2: 2^1 − 1 = 1. Not counted on the sheet before it, 2 − 3, nor left for 6x ≤ z; not 1 for no
    // group.
    "3 | 2x = 2y, 2x != z, 6x <= z, x != z | 2y + 7z != 0, 6y <= z | x: 3 | 1",
    // [4/4] = 1. 2z = 7x in the second row too: y + 7x = 0, seven times that x + 7y = 0. 4 × 7x = 4x = 0, less four times that
    // 4y = 0, and once off 7y. Not the chosen row alone replaced.
    "3 | x + 2z = 0, y + 2z = 0, z <= 3 | x + 3y = 0, 4y = 0 | z: 3 | 1",

    // The groups of Layer2.

    // Powers 1, 0: [2/2] × [4/4] = 1. Not a second group refused, of greater power here and of lesser in the next; not the lesser
    // power taken first, [4/1] × [2/16].
    "3 | x <= 3, 2x <= 1 | | x: 3 | 1",
    "3 | 2x <= 1, x <= 3 | | x: 3 | 1",
    // [2/2] × [3/4] = 0. Not [3/1], by κ alone or by k0 for every group.
    "3 | 2x <= 1, x <= 2 | 2x <= 1, x <= 2 | x: 0 | 1",
    // Powers 2, 1, 0: [4/4] × [4/4] × [4/4] = 1. Not two groups at most.
    "3 | 2x <= 3, 4x <= 3, x <= 3 | | x: 3 | 1",
    // k0 = 2 and powers 1, 0: [4/4] × [4/4] = 1, and 2 × 4y = 0. Not one group at most beside an equality.
    "3 | 4x = 4y, 2x <= 3, x <= 3 | | x: 3 | 1",
    // x + y and x + z are two terms with κ 0. Not grouped by κ, or by x and the constant.
    "3 | x + y <= 6, x + z <= 6 | x + y <= 6, x + z <= 6 | x: 0 | 1",
    // So are x and x + 1. Not grouped without the constants; not neighbours alone compared.
    "3 | x <= 6, 2x <= 6, x + 1 <= 6 | x <= 6, 2x <= 6, x + 1 <= 6 | x: 0 | 1",

    // The bounds of a group.

    // One group, u = 3, v = 4, δ = 2: 2 − 1 = 1. Not two bounds on a term refused, of one side or of both; not each bound strict.
    "3 | x + y <= 4, x + y <= 6, 1 <= x + y, 3 <= x + y, x != y | | x: 3 | 1",
    // 2 − 2 = 0. Not bounds below or above ignored, 5 or 5; not the first or the last of each, 4 or 4; not 0 enough.
    "3 | x <= 4, x <= 6, 1 <= x, 3 <= x, x != y, x != z | x <= 4, x <= 6, 1 <= x, 3 <= x, x + 7y != 0, x + 7z != 0 | x: 0 | 1",
    // u = 6, δ = 2: 2 − 1 = 1, and 2 − 2 = 0. Not two more than the bound; not at least, 3 − 2.
    "3 | 5 < x, x != y | | x: 3 | 1",
    "3 | 5 < x, x != y, x != z | 5 < x, x + 7y != 0, x + 7z != 0 | x: 0 | 1",
    // v = 1, δ = 2: the same. Not counted one less, 1 − 1; not at most, 3 − 2.
    "3 | x < 2, x != y | | x: 3 | 1",
    "3 | x < 2, x != y, x != z | x < 2, x + 7y != 0, x + 7z != 0 | x: 0 | 1",
    // u = 2^32, δ = 0. Not 0, modulo 2^32.
    "32 | 4294967295 < x | 4294967295 < x | x: 0 | 1",
    // v − u + 1 = −3, δ = 0. Not its amount.
    "3 | 6 <= x, x <= 2 | 6 <= x, x <= 2 | x: 0 | 1",
    // y + 6 is no constant, δ = 0. Not 7, by its 6; not 8, ignored.
    "3 | x <= y + 6 | x <= y + 6 | x: 0 | 1",

    // The surplus.

    // 8 − (1 + 2 + 4) = 1. Not 2^p, or the greatest of the three, for each.
    "3 | x != 1, 2x != y, 4x != z | | x: 3 | 1",
    // 8 − (1 + 2 + 4 + 1) = 0. Not 8 − 4, one for each.
    "3 | x != 1, 2x != y, 4x != z, x != 2 | x + 7 != 0, 2x + 7y != 0, 4x + 7z != 0, x + 6 != 0 | x: 0 | 1",
    // 2 − (1 + 1) = 0. Not the same counted once.
    "1 | x != y, x != y | x + y != 0, x + y != 0 | x: 0 | 1",
    // 2 × [5/2] − (1 + 2) = 1. Not without the 2^kr, 2 − 3.
    "3 | 2x <= 4, x != 1, 2x != y | | x: 3 | 1",
    // 2 × [5/2] − (1 + 1 + 2) = 0. Not the whole part of the product, [10/2] − 4.
    "3 | 2x <= 4, x != 1, x != 2, 2x != y | 2x <= 4, x + 7 != 0, x + 6 != 0, 2x + 7y != 0 | x: 0 | 1",
    // k0 = 1 and no group: 2 − 2 = 0. Not 2^p − 2.
    "3 | 2x = 2y, x != y, x != z | 2x + 6y = 0, x + 7y != 0, x + 7z != 0 | x: 0 | 1",
    // 2^32, and 2^32 − 1. Not 0 and −1, in 32 bits.
    "32 | x <= 4294967295, y != 0 | | x: 3, y: 3 | 1",
    // 2 − 1 = 1, and what lacks x stays in its order. Not every disequality counted, 2 − 2.
    "1 | y != z, x != z, z <= y | y + z != 0, z <= y | x: 3 | 1",

    // The walks.

    // y: 2 − 1 = 1, then x: 2 − 1 = 1. Not in the order of the words, 2 walks; not a new walk after each success.
    "1 | x != y, x != z | | y: 3, x: 3 | 1",
    // x goes by 8 − 1 = 7 and takes the constraint along. Not y by Layer2, since the input has it.
    "3 | x != y | | x: 3, y: 1 | 1",
    // x = 0 makes 1 ≤ 0, so y is absent. Not y by Layer2, tidied after the walk; not the false one dropped.
    "3 | x = 0, x + 1 <= 0, y <= 3 | 1 = 0 | x: 2, y: 1 | 1",
    // The second walk hides none and counts. Not 1.
    "3 | x <= z, y <= 5 | x <= z | x: 0, y: 3 | 2",
    // An absent word is hidden, so a second walk follows. Not 1; not the fates in the order of the words.
    "3 | x <= y | x <= y | z: 1, x: 0 | 2",
    // The bound is constant once y = 5: x ≤ 5. Not x left for good.
    "3 | x <= y, y = 5 | | x: 3, y: 2 | 2",
    // Each has one disequality too many until the next is gone: z, then y, then x. Not two walks; not z tried again, and absent.
    "1 | x != y, x != 0, y != z | | x: 3, y: 3, z: 3 | 3",
];
