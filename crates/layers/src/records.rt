// The row of records over which the surplus product is taken: of each group its power and its δ, greatest power first.
ghost use Rattle.std.specs.Prelude.{◌≡◌, ◌+◌, ◌-◌, ◌*◌, ◌/◌, ◌^◌, ◌≤◌};
ghost use Rattle.meaning.specs.Lists.{Each};
ghost use Rattle.meaning.specs.Layers.{ways};
ghost use Rattle.layers.specs.Records.{IsRecord, groups_in};

#[derive(Clone, Copy, Debug, Default, PartialEq, Eq)]
pub struct Record {
    pub power: u32,
    pub delta: u64,
}

// The product with one group more, whose share is the whole part of δ / 2^(p − k + its power); k is the power before it.
fn with_share(acc: u64, k: u32, r: Record, p: u32) -> u64
    requires { (p ≤ 32) × (k ≤ p) × IsRecord p r × (acc * 2 ^ k ≤ 2 ^ 32) }
    ensures { result ≡ acc * (r.delta / 2 ^ (p - k + r.power)) }
{
    acc * (r.delta >> (p - k + r.power))
}

// The product over the row, from the power k0 on, times 2 to the power that is last.
pub fn product(row: &[Record], k0: u32, p: u32) -> u64
    requires { (p ≤ 32) × (k0 ≤ p) × Each (IsRecord p) row.now }
    ensures most { result ≤ 2 ^ 32 }
    ensures ways { result ≡ ways p k0 (groups_in row.now) }
{
    let mut acc = 1;
    let mut k = k0;
    for r in row {
        acc = with_share(acc, k, *r, p);
        k = r.power;
    }
    acc << k
}
