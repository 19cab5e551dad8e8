// One number: arithmetic of 32-bit words taken modulo 2^p, for a width p up to 32. (The width is a plain number here and above: these
// functions take 0 to 32, a working sheet 1 to 32 and a new sheet any, so that no one type has the bound of all.)
#![tactic(auto)]

ghost use Rattle.std.specs.Prelude.{◌≡◌, ◌*◌, ◌/◌, ◌%◌, ◌^◌, ◌≤◌};
ghost use Rattle.meaning.specs.Number.{minus, kappa, inverse};

// The whole product of two words.
pub fn product(a: u32, b: u32) -> u64
    ensures { result ≡ a * b }
{
    u64::from(a) * u64::from(b)
}

// The low word of a product.
pub fn low(x: u64) -> u32
    ensures { result ≡ x % 2 ^ 32 }
{
    (x % 4294967296) as u32
}

// x modulo 2^p. The modulus is a power of two for the compiler to see, so this is a mask.
pub fn reduce(x: u32, p: u32) -> u32
    requires { p ≤ 32 }
    ensures { result ≡ x % 2 ^ p }
{
    (u64::from(x) % (1u64 << p)) as u32
}

// a less b: the difference drops its carry on purpose, and is then taken modulo 2^p.
pub fn minus(a: u32, b: u32, p: u32) -> u32
    requires { p ≤ 32 }
    ensures { result ≡ minus p a b }
{
    reduce(a.wrapping_sub(b), p)
}

// a less q times b. Only the end is taken modulo 2^p, so that loops over it run on vectors.
pub fn less(a: u32, q: u32, b: u32, p: u32) -> u32
    requires { p ≤ 32 }
    ensures { result ≡ minus p a (q * b) }
{
    minus(a, low(product(q, b)), p)
}

// q times a modulo 2^p.
pub fn times(q: u32, a: u32, p: u32) -> u32
    requires { p ≤ 32 }
    ensures { result ≡ (q * a) % 2 ^ p }
{
    reduce(low(product(q, a)), p)
}

// How many times 2 divides x, no further than p: of 0 it is p.
pub fn kappa(x: u32, p: u32) -> u32
    requires { p ≤ 32 }
    ensures { result ≡ kappa p x }
{
    x.trailing_zeros().min(p)
}

// A turn towards the inverse of b: it doubles the low bits of y that are right.
fn nearer(b: u32, y: u32) -> u32
    ensures { result ≡ (y * minus 32 2 (b * y)) % 2 ^ 32 }
{
    low(product(y, less(2, b, y, 32)))
}

// The inverse of an odd number modulo 2^p. The number is its own inverse modulo 8: 3, 6, 12, 24, 48 bits are right.
pub fn inverse(b: u32, p: u32) -> u32
    requires { (b % 2 ≡ 1) × (1 ≤ p) × (p ≤ 32) }
    ensures { result ≡ inverse p b }
{
    let y6 = nearer(b, b);
    let y12 = nearer(b, y6);
    let y24 = nearer(b, y12);
    let y48 = nearer(b, y24);
    reduce(y48, p)
}

// The power 2^k as a word: 0 where k is 32.
pub fn power(k: u32) -> u32
    requires { k ≤ 32 }
    ensures { result ≡ 2 ^ k % 2 ^ 32 }
{
    low(1u64 << k)
}

// x divided by 2^k, rounded down: 0 where k is 32.
pub fn shifted(x: u32, k: u32) -> u32
    requires { k ≤ 32 }
    ensures { result ≡ x / 2 ^ k }
{
    (u64::from(x) >> k) as u32
}
