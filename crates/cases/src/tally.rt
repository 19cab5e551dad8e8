// What was tried and found.
use crate::every;
use crate::page::Sheet;
use crate::trial::Heard;
use crate::why::Reason;
use hide::Fate;

#[derive(Clone, Copy, Default)]
pub struct Tally {
    pub sheets: u64,
    pub assignments: u64,
    pub absent: u64,
    pub layer1: u64,
    pub layer2: u64,
    pub left: u64,
    pub both: u64,
    pub moving: u64,
    pub bounded: u64,
    pub different: u64,
    pub walks: u64,
    pub most_walks: u64,
    pub never: u64,
    pub pairs: u64,
    pub same: u64,
    pub failed: u64,
}

// Counts one more.
pub fn more(count: &mut u64) {
    *count = count.saturating_add(1);
}

impl Tally {
    // Counts a sheet that is handed in.
    pub fn add_sheet(&mut self, sheet: &Sheet) {
        more(&mut self.sheets);
        self.assignments = self.assignments.saturating_add(every::count(sheet) as u64);
    }

    // Counts what was answered, the answer as a sheet beside it.
    pub fn add_answer(&mut self, heard: &Heard, answer: &Sheet) {
        let walks = heard.walks as u64;
        self.walks = self.walks.saturating_add(walks);
        self.most_walks = self.most_walks.max(walks);
        if answer.is_false() {
            more(&mut self.never);
        }
        for listed in &heard.fates {
            self.add_fate(listed.fate);
            if listed.fate == Fate::Left {
                self.add_reason(Reason::first(answer, listed.word));
            }
        }
    }

    fn add_fate(&mut self, fate: Fate) {
        match fate {
            Fate::Left => more(&mut self.left),
            Fate::Absent => more(&mut self.absent),
            Fate::Layer1 => more(&mut self.layer1),
            Fate::Layer2 => more(&mut self.layer2),
        }
    }

    fn add_reason(&mut self, reason: Reason) {
        match reason {
            Reason::Both => more(&mut self.both),
            Reason::Moving => more(&mut self.moving),
            Reason::Bounded => more(&mut self.bounded),
            Reason::Different => more(&mut self.different),
        }
    }
}
