ghost use Rattle.std.specs.Prelude.{◌≡◌};

use crate::planner::Planner;
use roster::roster::Roster;

impl<R, S, Q> Planner<R, S, Q> {
    // The trains, and the sections that are closed to them.
    pub fn roster(&self) -> &Roster
        ensures its_roster { result.now ≡ self.now.roster }
    {
        &self.roster
    }

    // The scale that the costs of its plans are of.
    pub fn scale(&self) -> &S
        ensures its_scale { result.now ≡ self.now.scale }
    {
        &self.scale
    }
}
