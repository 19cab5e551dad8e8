// Sheets and lists drawn from a seed, most of them where the rules bend: powers of two and their opposites, terms that come
// again, bounds at both ends, constraints that are decided or that no values meet.
ghost use Rattle.std.specs.Prelude.{◌<◌, length};

use crate::every;
use crate::page::{self, Constraint, Constraints, Sheet, Term, Words};
use sheet::Kind;
use sheet::Kind::{AtMost, Below, Different, Equal, Unknown};

// How large a sheet is: its width, and how many words and constraints it has.
#[derive(Clone, Copy)]
pub struct Shape {
    width: u8,
    words: u8,
    constraints: u32,
}

// What the constraints of a sheet share: the greatest number, the number of words, a word that most terms have, how many of four
// coefficients are drawn, an assignment at which most constraints hold, and the constraints that came before.
#[derive(Drop)]
struct Plan {
    most: u32,
    words: u8,
    word: u8,
    dense: u32,
    values: [u32; 4],
    before: Constraints,
}

impl Plan {
    // Changes a constraint that does not hold at the plan's assignment: an equality and a disequality by the constant on the right,
    // an inequality by its sides, so that it says the opposite.
    fn meet(&self, c: &mut Constraint) {
        let left = c.left.value(&self.values) & self.most;
        let right = c.right.value(&self.values) & self.most;
        match c.kind {
            Equal => c
                .right
                .add(left.wrapping_sub(right), &Term::from(1), self.most),
            Different if left == right => c.right.add(1, &Term::from(1), self.most),
            AtMost if left > right => c.turn(Below),
            Below | Unknown(_) if left >= right => c.turn(AtMost),
            _ => {},
        }
    }
}

// A seed, and what is drawn from it.
#[derive(Drop)]
pub struct Draw {
    seed: u64,
}

impl Draw {
    pub fn new(seed: u64) -> Self {
        Draw { seed }
    }

    // The next number of the seed.
    fn next(&mut self) -> u64 {
        let a = self.seed;
        let b = a ^ (a << 13);
        let c = b ^ (b >> 7);
        let d = c ^ (c << 17);
        self.seed = d;
        d >> 16
    }

    // A number below n.
    pub fn below(&mut self, n: u32) -> u32
        requires { 0 < n }
        ensures { result < n }
    {
        (self.next() % u64::from(n)) as u32
    }

    fn power(&mut self) -> u32 {
        1 << self.below(3)
    }

    // A coefficient or a constant: 0, 1, 2^p - 1, a power of two, its opposite, an odd multiple of it, or any.
    fn number(&mut self, plan: &Plan) -> u32 {
        let power = self.power();
        let any = self.below(8);
        let number = match self.below(8) {
            0 => 0,
            1 => 1,
            2 => plan.most,
            3 => power,
            4 => power.wrapping_neg(),
            5 => (any | 1).wrapping_mul(power),
            _ => any,
        };
        number & plan.most
    }

    // A number that bounds: an end or the number beside it, one of the two in the middle, or any.
    fn bound(&mut self, plan: &Plan) -> u32 {
        let most = plan.most;
        match self.below(8) {
            0 => 0,
            1 => 1,
            2 => most,
            3 => most ^ 1,
            4 => most >> 1,
            5 => most ^ (most >> 1),
            _ => self.below(8) & most,
        }
    }

    // A term: half of them without a constant.
    fn term(&mut self, plan: &Plan) -> Term {
        let mut term = Term::from(0);
        for c in term.words.iter_mut().take(usize::from(plan.words)) {
            if self.below(4) < plan.dense {
                *c = self.number(plan);
            }
        }
        let constant = self.number(plan);
        if self.below(2) == 1 {
            term.constant = constant;
        }
        term
    }

    // A term in which the plan's word has an odd multiple of a power of two.
    fn term_of_word(&mut self, plan: &Plan) -> Term {
        let odd = self.below(8) | 1;
        let coefficient = odd.wrapping_mul(self.power()) & plan.most;
        self.term(plan).with(plan.word, coefficient)
    }

    // A side: a term, seldom a constant, or a side that came before.
    fn side(&mut self, plan: &Plan) -> Term {
        let earlier = plan.before.get(self.below(8) as usize);
        match self.below(16) {
            0 => Term::from(self.bound(plan)),
            1..=2 => self.term(plan),
            3..=5 => match earlier {
                Some(c) => c.left,
                None => self.term(plan),
            },
            6..=8 => match earlier {
                Some(c) => c.right,
                None => self.term(plan),
            },
            _ => self.term_of_word(plan),
        }
    }

    // The left side of an equality or a disequality. One of four is a side taken twice, which says less of a word than all.
    fn left_side(&mut self, plan: &Plan) -> Term {
        let side = self.side(plan);
        if plan.most < 2 || self.below(4) < 3 {
            return side;
        }
        let mut twice = side;
        twice.add(1, &side, plan.most);
        twice
    }

    // The sides of an equality or a disequality.
    fn equal_sides(&mut self, plan: &Plan) -> (Term, Term) {
        let left = self.left_side(plan);
        let right = match self.below(32) {
            0 => left,
            1..=12 => Term::from(0),
            13..=20 => Term::from(self.bound(plan)),
            _ => self.side(plan),
        };
        (left, right)
    }

    // The sides of an inequality. A bound that leaves half of the numbers or more is what lets a word go.
    fn ordered_sides(&mut self, plan: &Plan) -> (Term, Term) {
        let small = self.below(8) & (plan.most >> 1);
        let side = self.side(plan);
        match self.below(8) {
            0..=2 => (Term::from(small), side),
            3..=4 => (side, Term::from(plan.most ^ small)),
            5 => (side, Term::from(self.bound(plan))),
            6 => (side, self.side(plan).with(plan.word, 0)),
            _ => (side, self.side(plan)),
        }
    }

    // A constraint of a kind. Of 32 constraints 31 hold at the plan's assignment.
    fn constraint(&mut self, kind: Kind, plan: &Plan) -> Constraint {
        let (left, right) = match kind {
            Equal | Different => self.equal_sides(plan),
            AtMost | Below | Unknown(_) => self.ordered_sides(plan),
        };
        let mut constraint = Constraint { kind, left, right };
        if self.below(32) != 0 {
            plan.meet(&mut constraint);
        }
        constraint
    }

    // One of seven mixtures: twelve kinds, each as often as it is to come.
    pub fn mixture(&mut self) -> [Kind; 12] {
        match self.below(8) {
            0 => [Equal; 12],
            1 => [Different; 12],
            2 => [
                AtMost, Below, AtMost, Below, AtMost, Below, AtMost, Below, AtMost, Below, AtMost,
                Below,
            ],
            3 => [
                Different, AtMost, Below, Different, AtMost, Below, Different, AtMost, Below,
                Different, AtMost, Below,
            ],
            4 => [
                Equal, Equal, Equal, Below, AtMost, Below, AtMost, Below, AtMost, Below, AtMost,
                Below,
            ],
            5 => [
                Equal, Equal, Equal, Different, AtMost, Below, Different, AtMost, Below, Different,
                AtMost, Below,
            ],
            _ => [
                Equal, Different, AtMost, Below, Equal, Different, AtMost, Below, Equal, Different,
                AtMost, Below,
            ],
        }
    }

    // A kind of a mixture.
    fn kind(&mut self, mixture: &[Kind]) -> Kind
        requires { 0 < length mixture.now }
    {
        mixture[(self.next() % mixture.len() as u64) as usize]
    }

    // A width from 1 to 3, 1 to 4 words, and at least one constraint.
    pub fn shape(&mut self, most_constraints: u32) -> Shape
        requires { 0 < most_constraints }
    {
        let width = 1 + self.below(3) as u8;
        let words = 1 + self.below(4) as u8;
        let constraints = 1 + self.below(most_constraints);
        Shape {
            width,
            words,
            constraints,
        }
    }

    // A sheet whose kinds are of a mixture, if there is room for its constraints.
    pub fn sheet(&mut self, shape: Shape, mixture: &[Kind]) -> Option<Sheet>
        requires { 0 < length mixture.now }
    {
        let any = self.below(4) as u8;
        let mut plan = Plan {
            most: page::greatest(shape.width),
            words: shape.words,
            word: if any < shape.words { any } else { 0 },
            dense: 1 + self.below(3),
            values: every::values(self.below(4096), shape.width),
            before: Constraints::new(),
        };
        for _ in 0..shape.constraints {
            let kind = self.kind(mixture);
            let constraint = self.constraint(kind, &plan);
            plan.before.try_push(constraint).ok()?;
        }
        Some(Sheet {
            width: shape.width,
            words: shape.words,
            constraints: plan.before,
        })
    }

    // Some of n words, each once.
    pub fn list(&mut self, n: u8) -> Option<Words> {
        let mut list = Words::new();
        for _ in 0..self.below(9) {
            let x = self.below(4) as u8;
            if x < n && !list.contains(&x) {
                list.try_push(x).ok()?;
            }
        }
        Some(list)
    }
}
