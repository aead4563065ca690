ghost use Rattle.std.specs.Prelude.{◌≡◌, ℕ, ◌<◌, length};
ghost use Rattle.roster.specs.Model.{rows_of};
ghost use Rattle.sheets.specs.Posing.{marked};

use crate::question::Question;

impl Question<'_, '_> {
    // Whether each train, by its row, is of the group.
    pub fn marks(&self) -> &[bool]
        ensures one_mark_for_each_train { length result.now ≡ rows_of self.now.roster.now }
        ensures as_the_group_is_marked { (row : ℕ) → row < rows_of self.now.roster.now → marked result.now row ≡ marked self.now.group row }
    {
        &self.group[..self.roster.count()]
    }
}
