// Layer1: the equality to go by for a word, and putting in what it says.
ghost use Rattle.std.specs.Prelude.{◌≡◌, map, ◌-◌, ◌^◌, ◌≤◌, ◌<◌, length, set, IfSome};
ghost use Rattle.meaning.specs.Lists.{Each, any_of};
ghost use Rattle.meaning.specs.Row.{IsRow, scale};
ghost use Rattle.meaning.specs.Sheet.{has};
ghost use Rattle.meaning.specs.Layers.{chosen, replaced, replaced_in, without};
ghost use Rattle.sheet.specs.Others.{others_of};
ghost use Rattle.sheet.specs.Work.{constraint_of, constraints_of, equalities_of};
ghost use Rattle.sheet.specs.Working.{IsWidth};
ghost use Rattle.layers.specs.Choice.{choice_of};
ghost use Rattle.layers.specs.Sides.{IsSides};

use row::Row;
use sheet::{Constraint, Equalities, Others};

// The least κ for a word among the equalities, and the first place that has it.
#[derive(Clone, Copy, Debug, PartialEq, Eq)]
pub struct Choice {
    pub power: u32,
    pub at: usize,
}

// The equality to go by for word x, if one has it.
pub fn choose(e: &Equalities, x: usize, p: u32) -> Option<Choice>
    requires { (p ≤ 32) × (x < 16) × (e.now.count ≤ 32) }
    ensures choice { choice_of p result ≡ chosen p x (equalities_of e.now) }
    ensures below { IfSome result (λ c. (c.power < p) × (c.at < e.now.count)) }
{
    let mut choice: Option<Choice> = None;
    for i in (0..e.count).rev() {
        let power = word::kappa(row::at(&e.rows, i, x), p);
        if power < p && choice.is_none_or(|c| power <= c.power) {
            choice = Some(Choice { power, at: i });
        }
    }
    choice
}

// Whether a constraint has the word x.
fn has(c: &Constraint, x: usize) -> bool
    requires { x < 16 }
    ensures { result ≡ has x (constraint_of c.now) }
{
    c.left.w[x] != 0 || c.right.w[x] != 0
}

// Whether an other has the word x.
pub fn sides_have(others: &[Constraint], x: usize) -> bool
    requires { x < 16 }
    ensures { result ≡ any_of (has x) (constraints_of others.now) }
{
    others.iter().any(|c| has(c, x))
}

// What the chosen row says of a word: this row, in which the word has the coefficient 2^power, is zero.
#[derive(Clone, Copy)]
pub struct Known {
    pub word: usize,
    pub power: u32,
    pub row: Row,
    pub width: u32,
    ghost limits: { IsWidth width × (word < 16) × (power ≤ width) },
    ghost is_row: { IsRow width row.w },
}

impl Known {
    // The row r with this put in, where 2^power divides its coefficient of the word.
    fn replaced(&self, r: Row) -> Row
        requires { IsRow self.now.width r.w }
        ensures { result.w ≡ replaced self.now.width self.now.word self.now.power self.now.row.w r.w }
    {
        let c = r.w[self.word];
        if c != 0 && self.power <= word::kappa(c, self.width) {
            return row::less(r, word::shifted(c, self.power), self.row, self.width);
        }
        r
    }

    // The others with this put in, in each side separately, in the place of what was in `next`. (It is lent, since it is large to
    // hand out.)
    pub fn replace_sides(&self, others: &[Constraint], next: &mut Others)
        requires { (length others.now ≤ 32) × Each (IsSides self.now.width) (constraints_of others.now) }
        ensures others { let k = self.now in constraints_of (others_of next.new) ≡ map (replaced_in k.width k.word k.power k.row.w) (constraints_of others.now) }
        ensures count { next.new.count ≡ length others.now }
    {
        next.clear();
        for c in others {
            next.push(Constraint {
                kind: c.kind,
                left: self.replaced(c.left),
                right: self.replaced(c.right),
            });
        }
    }

    // The equalities with this put in, and the chosen one, at a place, replaced by 2^(width − power) times the row.
    pub fn replace_rows(&self, e: &mut Equalities, at: usize)
        requires { (e.old.count ≤ 32) × (at < e.old.count) × Each (IsRow self.now.width) (equalities_of e.old) }
        ensures count { e.new.count ≡ e.old.count }
        ensures rows { let k = self.now in equalities_of e.new ≡ set (map (replaced k.width k.word k.power k.row.w) (equalities_of e.old)) at (scale k.width (2 ^ (k.width - k.power)) k.row.w) }
    {
        for i in 0..e.count {
            let r = row::row_of(&e.rows, i);
            row::put_row(&mut e.rows, i, self.replaced(r));
        }
        row::put_row(
            &mut e.rows,
            at,
            row::scale(word::power(self.width - self.power), self.row, self.width),
        );
    }
}

// The others without x.
pub fn drop_with(others: &mut Others, x: usize)
    requires { (x < 16) × (others.old.count ≤ 32) }
    ensures without { constraints_of (others_of others.new) ≡ without x (constraints_of (others_of others.old)) }
    ensures fewer { others.new.count ≤ others.old.count }
{
    others.retain(|c| !has(c, x));
}
