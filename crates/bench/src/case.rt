ghost use Rattle.std.specs.Prelude.{◌<◌, ◌≤◌};

use std::fmt;

mod pose;

// Two lines of `half` sections each, with a crossover at every third; so many trains are to go up to `far` and back, in so many steps.
#[derive(Clone, Copy)]
pub struct Case {
    pub half: u8,
    pub far: u8,
    pub trains: usize,
    pub steps: usize,
    // whether the walk is asked too: its work grows with the number of sheets. A yes or no of the case: an enum of two names would be no plainer
    pub walked: bool,
    ghost within_32_sections: { half ≤ 16 },
    ghost on_the_line: { far < half },
    ghost few: { trains ≤ 3 },
    ghost short: { steps ≤ 16 },
}

pub const CASES: [Case; 7] = [
    Case {
        half: 4,
        far: 3,
        trains: 1,
        steps: 6,
        walked: true,
    },
    Case {
        half: 4,
        far: 3,
        trains: 2,
        steps: 6,
        walked: true,
    },
    Case {
        half: 6,
        far: 5,
        trains: 2,
        steps: 8,
        walked: true,
    },
    Case {
        half: 8,
        far: 7,
        trains: 2,
        steps: 12,
        walked: false,
    },
    Case {
        half: 8,
        far: 7,
        trains: 3,
        steps: 12,
        walked: false,
    },
    Case {
        half: 16,
        far: 10,
        trains: 2,
        steps: 16,
        walked: false,
    },
    Case {
        half: 16,
        far: 10,
        trains: 3,
        steps: 16,
        walked: false,
    },
];

impl fmt::Display for Case {
    fn fmt<W: fmt::Write>(&self, f: &mut fmt::Formatter<W>) -> fmt::Result {
        let Case { trains, steps, .. } = *self;
        let sections = self.sections();
        let cells = self.cells();
        write!(
            f,
            "{sections} sections, {trains} trains, {steps} steps: {cells} cells"
        )
    }
}
