// Evidence that a person can run: the bench sheets from bytes to bytes and the sheets that pin the rules' choices, then drawn
// sheets, each held against trying every assignment, then pairs of equality sheets. What was tried and found is written in a few
// lines.
#![tactic(auto)]

mod bench;
mod draw;
mod every;
mod page;
mod pair;
mod pinned;
mod table;
mod tally;
mod trial;
mod why;

use draw::Draw;
use std::io;
use tally::Tally;

// Writes what was tried and found.
fn report(rt: &impl Print, t: &Tally) -> io::Result<()> {
    println!(rt;
        "{} sheets at widths 1 to 3 with 1 to 4 words, held against all their {} assignments",
        t.sheets, t.assignments
    )?;
    println!(rt;
        "{} listed words hidden by layer1, {} by layer2, {} absent, {} left:",
        t.layer1, t.layer2, t.absent, t.left
    )?;
    println!(rt;
        "{} on both sides of an inequality, {} beside a bound that is not constant, {} between constants, {} where only disequalities have them",
        t.both, t.moving, t.bounded, t.different
    )?;
    println!(rt; "{} walks, at most {} in a call", t.walks, t.most_walks)?;
    println!(rt; "{} answers 1 = 0", t.never)?;
    println!(rt;
        "{} pairs of equality sheets, {} with one projection and one answer, the others with two of each",
        t.pairs, t.same
    )?;
    println!(rt; "{} failed", t.failed)
}

fn main(rt: HostRuntime) -> io::Result<()> {
    let bench = table::answered(&bench::SHEETS)?;
    println!(rt;
        "{bench} of {} bench sheets answered as in the table",
        bench::SHEETS.len()
    )?;
    let pinned = table::answered(&pinned::SHEETS)?;
    println!(rt;
        "{pinned} of {} sheets answered as the rules say by hand",
        pinned::SHEETS.len()
    )?;
    let mut draw = Draw::new(88172645463325252);
    let mut tally = Tally::default();
    for _ in 0..20000 {
        if trial::sheet(&mut draw, &mut tally) != Some(true) {
            tally::more(&mut tally.failed);
            println!(rt; "sheet {} failed", tally.sheets)?;
        }
    }
    for _ in 0..10000 {
        if pair::pair(&mut draw, &mut tally) != Some(true) {
            tally::more(&mut tally.failed);
            println!(rt; "pair {} failed", tally.pairs)?;
        }
    }
    report(&rt, &tally)
}
