use crate::book::Book;
use crate::throat::Throat;

mod find;
mod lawful;
mod moves;
mod price;

// What is to be planned: the trains of a book on a throat, in so many steps; under clear section or following, by points too or by steps alone.
#[derive(Clone, Copy)]
pub struct Problem<'a> {
    pub throat: &'a Throat,
    pub book: &'a Book,
    pub steps: usize,
    pub clear: bool,
    pub by_points: bool,
}

// Where a train stands at times 0 to 4.
pub type Way = [u8; 5];

// Which of the first three trains are meant.
pub type Marks = [bool; 3];

// Where three trains stand, by the time and then by the train. Read so, the sheets of one problem come in the order of their numbers.
#[derive(Clone, Copy, PartialEq, Eq, PartialOrd, Ord)]
pub struct Plan {
    pub places: [[u8; 3]; 5],
}

// So many steps, over so many points: none where points do not count.
pub type Cost = (u16, u16);

// The best sheet of some trains, what it costs, and how many lawful sheets cost no more.
#[derive(Clone, Copy)]
pub struct Best {
    pub cost: Cost,
    pub plan: Plan,
    pub equals: usize,
}
