// Tidying the working sheet: its rows go one after the other into a basis that has a place for each word, each place's row
// is lowered by the later ones, and the decided constraints go.
#![tactic(auto)]

ghost use Rattle.std.specs.Prelude.{◌≡◌, true, replicate, ◌+◌, ◌-◌, ◌≤◌, ◌<◌};
ghost use Rattle.meaning.specs.Lists.{Each, any_of};
ghost use Rattle.meaning.specs.Number.{kappa};
ghost use Rattle.meaning.specs.Row.{IsRow, coefficient, unit};
ghost use Rattle.meaning.specs.Tidy.{turn, put, put_all, lowered, reduced, filled, comparedb, decided, refuted, kept, tidy};
ghost use Rattle.row.specs.Block.{row_of, put_row, rows_from};
ghost use Rattle.sheet.specs.Kind.{kind_number};
ghost use Rattle.sheet.specs.Others.{others_of};
ghost use Rattle.sheet.specs.Work.{constraint_of, constraints_of, equalities_of, sheet_work};
ghost use Rattle.sheet.specs.Working.{IsWidth, IsWorking};
ghost use Rattle.tidy.specs.Blocks.{HasRows, basis_of};

use sheet::{Constraint, Equalities, Kind, Others, Sheet};

// The basis: a place for each word, which has the row that leads with it, or zeros where there is none. (Its rows stand in one flat
// block: rows by value are slower.)
#[derive(Drop)]
struct Basis {
    width: u32,
    places: [u32; 272],
    ghost limits: { IsWidth width },
    ghost rows: { HasRows width places },
}

impl Basis {
    // No row yet.
    fn new(width: u32) -> Self
        requires { IsWidth width }
        ensures width { result.width ≡ width }
        ensures places { result.places ≡ replicate 272 0 }
    {
        Basis {
            width,
            places: [0; 272],
        }
    }

    // Row i times an inverse, as the row that leads with x, in the place of x, and what stood there in row i.
    fn trade(&mut self, x: usize, rows: &mut [u32; 544], i: usize)
        requires row { (x < 16) × (i < 32) × IsRow self.old.width (row_of rows.old i) }
        requires even { kappa self.old.width (coefficient (row_of rows.old i) x) < self.old.width }
        ensures width { self.new.width ≡ self.old.width }
        ensures place { self.new.places ≡ put_row self.old.places x (unit self.old.width x (row_of rows.old i)) }
        ensures pending { rows.new ≡ put_row rows.old i (row_of self.old.places x) }
    {
        let r = row::unit(rows, i, x, self.width);
        row::put_row(rows, i, row::row_of(&self.places, x));
        row::put_row(&mut self.places, x, r);
    }

    // The turn of word x: of its place and the pending row, which is row i, the one that 2 divides less often stays and clears the
    // other. The pending row goes on to the later words.
    fn turn(&mut self, x: usize, rows: &mut [u32; 544], i: usize)
        requires { (x < 16) × (i < 32) × IsRow self.old.width (row_of rows.old i) }
        ensures width { self.new.width ≡ self.old.width }
        ensures place { self.new.places ≡ put_row self.old.places x (turn self.old.width x (row_of self.old.places x) (row_of rows.old i)).place }
        ensures pending { rows.new ≡ put_row rows.old i (turn self.old.width x (row_of self.old.places x) (row_of rows.old i)).pending }
    {
        let p = self.width;
        let c = row::at(rows, i, x);
        if c != 0 {
            let k = word::kappa(row::at(&self.places, x, x), p);
            let j = word::kappa(c, p);
            let q = if j < k {
                self.trade(x, rows, i);
                word::power(k - j)
            } else {
                word::shifted(c, k)
            };
            row::less_in(rows, i, q, row::row_of(&self.places, x), p);
        }
    }

    // Row i put in; what is left of it stays where it was.
    fn put(&mut self, rows: &mut [u32; 544], i: usize)
        requires { (i < 32) × IsRow self.old.width (row_of rows.old i) }
        ensures width { self.new.width ≡ self.old.width }
        ensures places { rows_from self.new.places 0 16 ≡ (put self.old.width 0 (rows_from self.old.places 0 16) (row_of rows.old i)).places }
        ensures rest { rows.new ≡ put_row rows.old i (put self.old.width 0 (rows_from self.old.places 0 16) (row_of rows.old i)).rest }
    {
        for x in 0..Sheet::WORDS {
            self.turn(x, rows, i);
        }
    }

    // All rows put in; the answer is whether they have a solution. Their block is used up.
    fn put_all(&mut self, e: &mut Equalities) -> bool
        requires { (e.old.count ≤ 32) × Each (IsRow self.old.width) (equalities_of e.old) }
        ensures width { self.new.width ≡ self.old.width }
        ensures places { rows_from self.new.places 0 16 ≡ (put_all self.old.width (equalities_of e.old) (basis_of self.old.places)).places }
        ensures solvable { result ≡ (put_all self.old.width (equalities_of e.old) (basis_of self.old.places)).solvable }
    {
        let mut solvable = true;
        for i in 0..e.count {
            self.put(&mut e.rows, i);
            solvable &= row::at(&e.rows, i, row::WORDS) == 0;
        }
        solvable
    }

    // The row of place x less what the place of word y takes off it.
    fn lower_by(&mut self, x: usize, y: usize)
        requires { (x < y) × (y < 16) }
        ensures width { self.new.width ≡ self.old.width }
        ensures place { self.new.places ≡ put_row self.old.places x (lowered self.old.width y (rows_from self.old.places y 1) (row_of self.old.places x)) }
    {
        let p = self.width;
        let c = row::at(&self.places, x, y);
        if c != 0 {
            let q = word::shifted(c, word::kappa(row::at(&self.places, y, y), p));
            if q != 0 {
                let s = row::row_of(&self.places, y);
                row::less_in(&mut self.places, x, q, s, p);
            }
        }
    }

    // The row of place x less what the later places take off it.
    fn lower(&mut self, x: usize)
        requires { x < 16 }
        ensures width { self.new.width ≡ self.old.width }
        ensures place { let l = self.old.places in let y = x + 1 in self.new.places ≡ put_row l x (lowered self.old.width y (rows_from l y (16 - y)) (row_of l x)) }
    {
        for y in x + 1..Sheet::WORDS {
            self.lower_by(x, y);
        }
    }

    // Each place's row lowered by the later ones, from the last place to the first.
    fn reduce(&mut self)
        ensures width { self.new.width ≡ self.old.width }
        ensures places { rows_from self.new.places 0 16 ≡ reduced self.old.width 0 (rows_from self.old.places 0 16) }
    {
        for x in (0..Sheet::WORDS).rev() {
            self.lower(x);
        }
    }

    // The equalities become the places that have a row.
    fn fill(&self, e: &mut Equalities)
        ensures few { e.new.count ≤ 16 }
        ensures rows { equalities_of e.new ≡ filled (rows_from self.now.places 0 16) }
    {
        e.count = 0;
        for x in 0..Sheet::WORDS {
            let r = row::row_of(&self.places, x);
            if !row::wordless(r) {
                e.push(r);
            }
        }
    }
}

// How two constants compare.
fn compare(kind: Kind, x: u32, y: u32) -> bool
    ensures { result ≡ comparedb (kind_number kind) x y }
{
    match kind {
        Kind::Equal => x == y,
        Kind::Different => x != y,
        Kind::AtMost => x <= y,
        Kind::Below | Kind::Unknown(_) => x < y,
    }
}

// Whether a constraint has no word in it.
fn is_decided(c: &Constraint) -> bool
    ensures { result ≡ decided (constraint_of c.now) }
{
    row::wordless(c.left) && row::wordless(c.right)
}

// Whether a constraint is decided and false.
fn is_refuted(c: &Constraint) -> bool
    ensures { result ≡ refuted (constraint_of c.now) }
{
    is_decided(c) && !compare(c.kind, c.left.w[row::WORDS], c.right.w[row::WORDS])
}

// Whether an other is decided and false.
fn any_refuted(others: &[Constraint]) -> bool
    ensures { result ≡ any_of refuted (constraints_of others.now) }
{
    others.iter().any(is_refuted)
}

// The others that tidying keeps.
fn keep(others: &mut Others)
    requires { others.old.count ≤ 32 }
    ensures kept { constraints_of (others_of others.new) ≡ kept (constraints_of (others_of others.old)) }
    ensures fewer { others.new.count ≤ others.old.count }
{
    others.retain(|c| !is_decided(c));
}

// Tidies the working sheet.
pub fn tidy_in(s: &mut Sheet)
    requires { IsWorking s.old }
    ensures working { IsWorking s.new }
    ensures width { s.new.width ≡ s.old.width }
    ensures words { s.new.words ≡ s.old.words }
    ensures few { s.new.equalities.count ≤ 16 }
    ensures fewer { s.new.others.count ≤ s.old.others.count }
    ensures work { sheet_work s.new ≡ tidy s.old.width (sheet_work s.old) }
{
    let mut basis = Basis::new(s.width);
    if basis.put_all(&mut s.equalities) && !any_refuted(s.others.as_slice()) {
        basis.reduce();
        basis.fill(&mut s.equalities);
        keep(&mut s.others);
    } else {
        row::put_row(&mut s.equalities.rows, 0, sheet::one());
        s.equalities.count = 1;
        s.others.clear();
    }
}

// The sheet, tidied, by value.
pub fn tidied(mut s: Sheet) -> Sheet
    requires { IsWorking s }
    ensures working { IsWorking result }
    ensures width { result.width ≡ s.width }
    ensures words { result.words ≡ s.words }
    ensures few { result.equalities.count ≤ 16 }
    ensures fewer { result.others.count ≤ s.others.count }
    ensures work { sheet_work result ≡ tidy s.width (sheet_work s) }
{
    tidy_in(&mut s);
    s
}
