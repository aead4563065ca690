// For each train the section in which it stands at each time: 8 rows, for the trains in rising number, and 17 columns, for the times from 0.
#[derive(Clone, Copy, PartialEq, Eq, Debug, Default)]
pub struct Sheet {
    pub rows: [[u8; 17]; 8],
}
