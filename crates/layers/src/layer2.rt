// Layer2: whether the groups of inequalities with a word leave more values than the disequalities can take away.
ghost use Rattle.std.specs.Prelude.{◌≡◌, ◌-◌, ◌^◌, ◌≤◌, ◌<◌, ℕ, length, replicate, IsTrue, None};
ghost use Rattle.meaning.specs.Lists.{Each};
ghost use Rattle.meaning.specs.Sheet.{IsOther};
ghost use Rattle.meaning.specs.Layers.{estimate, low_after, past_after, tightened, grouped, with_bound, gathered, ways, lost_to, lost, spare};
ghost use Rattle.sheet.specs.Work.{constraint_of, constraints_of};
ghost use Rattle.sheet.specs.Working.{IsWidth};
ghost use Rattle.layers.specs.Groups.{bound_of, group_at, groups_below, groups_of, IsGroup, IsTable, opened, sound};

use crate::records::{self, Record};
use arrayvec::ArrayVec;
use row::Row;
use sheet::{Constraint, Kind};

// The powers of two that a coefficient may have: 0 to 31.
const POWERS: usize = 32;

// The inequalities that have one term: their greatest lower bound, and one more than their least upper bound.
#[derive(Clone, Copy)]
struct Group<'a> {
    term: &'a Row,
    low: u64,
    past: u64,
}

// The groups by their power, one of each at most.
type Table<'a> = [Option<Group<'a>>; POWERS];

// An inequality as a bound on its side with the word, by the other side.
#[derive(Clone, Copy)]
struct Bound<'a> {
    term: &'a Row,
    other: &'a Row,
    above: bool,
    strict: bool,
}

// What a bound counts by: the other side's greatest value from below, one more than its least from above. A side with a word counts
// by what leaves no δ.
fn estimate(b: &Bound, p: u32) -> u64
    requires { p ≤ 32 }
    ensures most { result ≤ 2 ^ 32 }
    ensures value { result ≡ estimate p b.now.above b.now.other.now.w }
{
    let constant = row::wordless(*b.other);
    let c = b.other.w[row::WORDS] as u64;
    if b.above {
        if constant { c + 1 } else { 0 }
    } else if constant {
        c
    } else {
        1u64 << p
    }
}

// A group's greatest lower bound, after a bound b that counts by c.
fn lower(low: u64, c: u64, b: &Bound) -> u64
    requires { c ≤ 2 ^ 32 }
    ensures { result ≡ low_after b.now.above b.now.strict c low }
{
    if b.above {
        low
    } else if b.strict {
        low.max(c + 1)
    } else {
        low.max(c)
    }
}

// One more than a group's least upper bound, after a bound b that counts by c. A strict one counts by one less, or by 0 where c is 0.
// (Two functions, as the definitions have two.)
fn upper(past: u64, c: u64, b: &Bound) -> u64
    ensures { result ≡ past_after b.now.above b.now.strict c past }
{
    if b.above {
        if b.strict {
            past.min(c.max(1) - 1)
        } else {
            past.min(c)
        }
    } else {
        past
    }
}

// δ of a group with the greatest lower bound `low` and the least upper bound one below `past`. That end may be −1, and the width
// negative: δ is then 0.
fn delta(low: u64, past: u64) -> u64
    requires { (low ≤ 2 ^ 33) × (past ≤ 2 ^ 32) }
    ensures { result ≡ past - low }
{
    let end = past as i64 - 1;
    let width = end - low as i64 + 1;
    if width < 0 { 0 } else { width as u64 }
}

// The group g after the bound b.
fn tightened<'a>(g: Group<'a>, b: &Bound<'a>, p: u32) -> Group<'a>
    requires { (p ≤ 32) × IsGroup p g }
    ensures group { (k : ℕ) → group_at k result ≡ tightened p (bound_of b.now) (group_at k g.entry) }
    ensures ends { (result.low ≤ 2 ^ 33) × (result.past ≤ 2 ^ p) }
{
    let c = estimate(b, p);
    Group {
        term: g.term,
        low: lower(g.low, c, b),
        past: upper(g.past, c, b),
    }
}

// The group that the bound b goes into: what stands at its power, or a new one where nothing does. There is none where that group
// has another term.
fn opened<'a>(there: Option<Group<'a>>, b: &Bound<'a>, p: u32) -> Option<Group<'a>>
    requires { p ≤ 32 }
    ensures { result ≡ opened p b.now there.entry }
{
    match there {
        None => Some(Group {
            term: b.term,
            low: 0,
            past: 1u64 << p,
        }),
        Some(g) if row::equal(*b.term, *g.term) => Some(g),
        Some(_) => None,
    }
}

// The bound b of power k taken into its group. False where that has another term, or where its δ is 0 then: no surplus is left,
// whatever else stands there.
fn take_bound<'a>(groups: &mut Table<'a>, k: usize, b: &Bound<'a>, p: u32) -> bool
    requires { (p ≤ 32) × (k < p) × IsTable p groups.old }
    ensures sound { result ≡ sound (grouped p k (bound_of b.now) (groups_below groups.old 32)) }
    ensures held { IsTrue result → grouped p k (bound_of b.now) (groups_below groups.old 32) ≡ groups_of groups.new }
    ensures table { IsTable p groups.new }
{
    let Some(before) = opened(groups[k], b, p) else {
        return false;
    };
    let group = tightened(before, b, p);
    if delta(group.low, group.past) == 0 {
        return false;
    }
    groups[k] = Some(group);
    true
}

// The constraint c taken into the groups where it is an inequality with x: it must have x on one side only.
fn take_other<'a>(groups: &mut Table<'a>, c: &'a Constraint, x: usize, p: u32) -> bool
    requires { IsWidth p × (x < 16) × IsOther p (constraint_of c.now) × IsTable p groups.old }
    ensures sound { result ≡ sound (with_bound p x (constraint_of c.now) (groups_of groups.old)) }
    ensures held { IsTrue result → with_bound p x (constraint_of c.now) (groups_of groups.old) ≡ groups_of groups.new }
    ensures table { IsTable p groups.new }
{
    let strict = match c.kind {
        Kind::Equal | Kind::Different => return true,
        Kind::AtMost => false,
        Kind::Below | Kind::Unknown(_) => true,
    };
    let bound = match (c.left.w[x] != 0, c.right.w[x] != 0) {
        (false, false) => return true,
        (true, true) => return false,
        (true, false) => Bound {
            term: &c.left,
            other: &c.right,
            above: true,
            strict,
        },
        (false, true) => Bound {
            term: &c.right,
            other: &c.left,
            above: false,
            strict,
        },
    };
    take_bound(groups, word::kappa(bound.term.w[x], p) as usize, &bound, p)
}

// All inequalities with x into their groups, from the last to the first. False where the groups are not as they must be or a δ is 0:
// x is left then, whatever else stands there. (The groups are lent, since a table of them is large to hand out.)
fn gather<'a>(groups: &mut Table<'a>, others: &'a [Constraint], x: usize, p: u32) -> bool
    requires { IsWidth p × (x < 16) × (length others.now ≤ 32) × Each (IsOther p) (constraints_of others.now) × (groups.old ≡ replicate 32 None) }
    ensures sound { result ≡ sound (gathered p x (constraints_of others.now)) }
    ensures held { IsTrue result → gathered p x (constraints_of others.now) ≡ groups_of groups.new }
    ensures table { IsTable p groups.new }
{
    for c in others.iter().rev() {
        if !take_other(groups, c, x, p) {
            return false;
        }
    }
    true
}

// How many values the groups leave at least, from the power k0 on: the product over their records, greatest power first.
fn ways(groups: &Table, k0: u32, p: u32) -> u64
    requires { (p ≤ 32) × (k0 ≤ p) × IsTable p groups.now }
    ensures most { result ≤ 2 ^ 32 }
    ensures value { result ≡ ways p k0 (groups_below groups.now 32) }
{
    let mut row: ArrayVec<Record, POWERS> = ArrayVec::new();
    for power in (0..p).rev() {
        if let Some(g) = groups[power as usize] {
            row.push(Record {
                power,
                delta: delta(g.low, g.past),
            });
        }
    }
    records::product(&row, k0, p)
}

// How many values a constraint takes away at most, where it is a disequality with x.
fn lost_to(c: &Constraint, x: usize, p: u32) -> u64
    requires { (p ≤ 32) × (x < 16) × IsOther p (constraint_of c.now) }
    ensures most { result ≤ 2 ^ 32 }
    ensures value { result ≡ lost_to p x (constraint_of c.now) }
{
    if c.kind != Kind::Different || c.left.w[x] == 0 {
        return 0;
    }
    1u64 << word::kappa(c.left.w[x], p)
}

// How many values the disequalities with x take away at most.
fn lost(others: &[Constraint], x: usize, p: u32) -> u64
    requires { (p ≤ 32) × (x < 16) × (length others.now ≤ 32) × Each (IsOther p) (constraints_of others.now) }
    ensures most { result ≤ 2 ^ 37 }
    ensures value { result ≡ lost p x (constraints_of others.now) }
{
    let mut acc = 0;
    for c in others {
        acc += lost_to(c, x, p);
    }
    acc
}

// Whether the groups are as they must be and the surplus is 1 or more.
pub fn has_spare(others: &[Constraint], x: usize, k: u32, p: u32) -> bool
    requires { IsWidth p × (x < 16) × (k ≤ p) × (length others.now ≤ 32) × Each (IsOther p) (constraints_of others.now) }
    ensures { result ≡ spare p x k (constraints_of others.now) }
{
    let mut groups = [None; POWERS];
    if !gather(&mut groups, others, x, p) {
        return false;
    }
    let surplus = ways(&groups, k, p) as i64 - lost(others, x, p) as i64;
    1 <= surplus
}
