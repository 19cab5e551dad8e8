// The fourteen bench sheets, B1 to B14, with the answers, fates and walks of the table `cases` in specs/Bench of `meaning`, where
// the definitions compute them.
pub const SHEETS: [&str; 14] = [
    "3 | 6x + y = 4, 2x + z != 0, 4x + y <= 3 | 4y = 0, 5y + z + 4 != 0, 3y <= 3 | x: 2 | 1",
    "3 | z = 4x + y, 6x + y <= 4, x != z | 2y + 6z = 0 | x: 3 | 1",
    "3 | 2x + 3y = 4, x + y <= 3 | 4y = 0 | x: 3 | 1",
    "3 | 2x + 3y = 4, x + y <= 2 | 2x + 3y + 4 = 0, 4y = 0, x + y <= 2 | x: 0 | 1",
    "3 | 2x = 1 | 1 = 0 | | 0",
    "3 | 6x + y = 4 | 2x + 3y + 4 = 0, 4y = 0 | | 0",
    "1 | x != y | | x: 3 | 1",
    "1 | x != y, x != z | x + y != 0, x + z != 0 | x: 0 | 1",
    "1 | x != y, x != z | | x: 3, y: 3 | 2",
    "3 | 2x <= x | 2x <= x | x: 0 | 1",
    "3 | x < 0 | x < 0 | x: 0 | 1",
    "3 | 2x = 2, 6x = 6 | 2x + 6 = 0 | | 0",
    "32 | 4294967295x = 1 | x + 1 = 0 | | 0",
    "3 | | | | 0",
];
