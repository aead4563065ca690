ghost use Rattle.std.specs.Prelude.{◌≡◌, ℕ, ◌≤◌, length, nat_le};
ghost use Rattle.std.specs.List.{prefix_len, slice_get};
ghost use Rattle.roster.specs.Trains.{taken, number_of, start_of, goal_of, place_from};
ghost use Rattle.roster.specs.Book.{how_many, lowest};
ghost use Rattle.roster.specs.Model.{held, seen, rows_of, closed_of, RowIs};

use crate::roster::Roster;
use crate::roster::checks::has;
use crate::train::Train;

impl Roster {
    // The trains in rising number, one for each row.
    pub fn trains(&self) -> &[Train]
        ensures the_trains_of_the_book { result.now ≡ (seen self.now).trains }
        ensures as_many_as_there_are_rows { length result.now ≡ rows_of self.now }
        ensures at_most_eight { length result.now ≤ 8 }
        ensures each_stands_on_its_row { (row : ℕ) → RowIs self.now row (slice_get result.now row) }
    {
        self.trains.items()
    }

    // How many trains there are, and with that how many rows.
    pub fn count(&self) -> usize
        ensures as_many_as_the_book_has { result ≡ length (seen self.now).trains }
        ensures as_many_as_there_are_rows { result ≡ rows_of self.now }
        ensures at_most_eight { result ≤ 8 }
    {
        self.trains().len()
    }

    // The train of a row, if there is such a row.
    pub fn train(&self, row: usize) -> Option<Train>
        ensures the_train_of_the_row { result ≡ slice_get (held self.now) row }
        ensures a_row_has_its_start_and_goal { RowIs self.now row result }
    {
        self.trains().get(row).copied()
    }

    // Whether a section is closed; a number of 32 or more is none.
    pub fn is_closed(&self, section: u8) -> bool
        ensures whether_the_book_has_it_closed { result ≡ (seen self.now).closed section }
        ensures whether_it_is_closed { result ≡ closed_of self.now section }
    {
        let closed = self.closed;
        section < 32 && has(closed, section)
    }

    // How many sections are closed, and which is the lowest.
    pub fn closed(&self) -> (u32, Option<u8>)
        ensures how_many_are_closed { result.0 ≡ how_many 32 (seen self.now).closed }
        ensures the_lowest_that_is_closed { result.1 ≡ lowest 32 (seen self.now).closed }
    {
        // `as` is proved to lose nothing here: `u8::try_from` with an `unwrap` would say no more
        (
            self.closed.count_ones(),
            (self.closed != 0).then_some(self.closed.trailing_zeros() as u8),
        )
    }

    pub(super) fn number_taken(&self, number: u16) -> bool
        ensures whether_a_train_has_the_number { result ≡ taken number_of number (held self.now) }
    {
        self.find(number).is_some()
    }

    // `start_taken` and `goal_taken` are one chain over two fields: a function that takes the field as a closure would make
    // the calls longer and the two bodies no shorter.
    pub(super) fn start_taken(&self, section: u8) -> bool
        ensures whether_a_train_has_the_start { result ≡ taken start_of section (held self.now) }
    {
        self.trains().iter().any(|train| train.start == section)
    }

    pub(super) fn goal_taken(&self, section: u8) -> bool
        ensures whether_a_train_has_the_goal { result ≡ taken goal_of section (held self.now) }
    {
        self.trains().iter().any(|train| train.goal == section)
    }

    // How many trains have a number below `number` or equal to it, before the first with a higher one.
    pub(super) fn place(&self, number: u16) -> usize
        ensures as_many_as_come_before { result ≡ prefix_len (λ x. nat_le x.number number) (held self.now) }
        ensures at_most_the_count { result ≤ length (held self.now) }
    {
        self.trains()
            .partition_point(|train| train.number <= number)
    }

    // The row of the train with the number.
    pub(super) fn find(&self, number: u16) -> Option<usize>
        ensures the_first_row_with_the_number { result ≡ place_from 0 number (held self.now) }
    {
        self.trains()
            .binary_search_by_key(&number, |train| train.number)
            .ok()
    }
}
