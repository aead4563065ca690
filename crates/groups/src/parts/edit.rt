ghost use Rattle.std.specs.Prelude.{◌≡◌, ◌<◌};
ghost use Rattle.sheets.specs.Posing.{marked};
ghost use Rattle.sheets.specs.Problem.{Problem, Group};
ghost use Rattle.groups.specs.Parts.{alone, merged, part};
ghost use Rattle.groups.specs.Laws.{AsManyPartsAsTrainsAtFirst, BothPartsAreOne, EachJoiningMakesBothPartsOne, EachJoiningTakesOneAway};
ghost use Rattle.groups.specs.Model.{naming};

use crate::parts::Parts;
use std::array;

impl Parts {
    // Each row is a part of its own.
    pub fn alone() -> Parts
        ensures each_row_is_a_part { naming result ≡ alone }
        ensures there_are_as_many_parts_as_trains_at_first { (Q : Problem) (G : Group) → AsManyPartsAsTrainsAtFirst Q G }
    {
        Parts {
            names: [0, 1, 2, 3, 4, 5, 6, 7],
        }
    }

    // The row that the part of `row` goes by.
    #[tactic(auto, unfolding(crate::specs::Model::naming))]
    pub fn name(&self, row: usize) -> usize
        ensures the_name_of_its_part { result ≡ naming self.now row }
    {
        self.names.get(row).copied().unwrap_or(row)
    }

    // The parts of the two rows as one, under the name of the first. Rows that no roster has are left alone.
    pub fn joined(self, row: usize, other: usize) -> Parts
        ensures the_two_parts_are_one { row < 8 → other < 8 → naming result ≡ merged (naming self) row other }
        ensures just_the_rows_of_both_parts_are_one_part { row < 8 → other < 8
            → BothPartsAreOne (naming self) row other (naming result) }
        ensures each_joining_makes_both_parts_one { EachJoiningMakesBothPartsOne }
        ensures other_rows_are_left_alone { (row < 8 → other < 8 → ⊥) → result ≡ self }
        ensures each_joining_takes_one_away { (Q : Problem) (G : Group) → EachJoiningTakesOneAway Q G }
    {
        if row >= 8 || other >= 8 {
            return self;
        }
        let stays = self.names[row];
        let gone = self.names[other];
        let names = self
            .names
            .map(|name| if name == gone { stays } else { name });
        Parts { names }
    }

    // Marks the rows of a group that are in the part of `row`.
    pub fn marks(&self, group: [bool; 8], row: usize) -> [bool; 8]
        ensures the_rows_of_its_part { marked result ≡ part (marked group) (naming self.now) (naming self.now row) }
    {
        let name = self.name(row);
        array::from_fn(|p| group[p] && self.names[p] == name)
    }
}
