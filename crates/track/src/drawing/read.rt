ghost use Rattle.std.specs.Prelude.{◌≡◌, ◌≤◌};
ghost use Rattle.track.specs.Fouls.{fouled_by};
ghost use Rattle.track.specs.Links.{linked_either};
ghost use Rattle.track.specs.Model.{drawn};

use crate::drawing::Drawing;
use crate::foul::Foul;
use crate::link::{Link, points_in};

impl Drawing {
    pub(crate) fn sections(&self) -> u8
        ensures how_many_sections_are_drawn { result ≡ (drawn self.now).sections }
        ensures at_most_thirty_two { result ≤ 32 }
    {
        self.sections
    }

    pub(crate) fn links(&self) -> &[Link]
        ensures the_links_that_are_drawn { result.now ≡ (drawn self.now).links }
    {
        self.links.items()
    }

    pub(super) fn fouls(&self) -> &[Foul]
        ensures the_fouls_that_are_drawn { result.now ≡ (drawn self.now).fouls }
    {
        self.fouls.items()
    }

    // Whether there is a link between `a` and `b`, from whichever end. Both ways are looked up, though each answers the same today:
    // where links had a direction, the lookup alone would change.
    pub(crate) fn has_link(&self, a: u8, b: u8) -> bool
        ensures whether_there_is_such_a_link { result ≡ linked_either (drawn self.now).links a b }
    {
        let links = self.links();
        points_in(links, a, b).is_some() || points_in(links, b, a).is_some()
    }

    // Whether the two links of `foul` foul already.
    pub(crate) fn has_foul(&self, foul: &Foul) -> bool
        ensures whether_the_foul_is_there { result ≡ fouled_by (drawn self.now).fouls foul.now.a foul.now.b foul.now.c foul.now.d }
    {
        self.fouls().iter().any(|other| other.is_of(foul))
    }
}
