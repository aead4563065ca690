ghost use Rattle.std.specs.Prelude.{◌≡◌};
ghost use Rattle.track.specs.Layouts.{LayoutLaws};
ghost use Rattle.track.specs.Model.{drawn, laid, blank, BothWays, sections_declined, link_declined, foul_declined, widened, with_link, with_foul};
ghost use Rattle.track.specs.Refusals.{refused_by, granted, AsItWas};

use crate::drawing::Drawing;
use crate::foul::Foul;
use crate::layout::Layout;
use crate::link::{Link, same_link};
use crate::list::FixedList;
use crate::refusal::Refusal;
use crate::ways::find::chart;

impl Drawing {
    pub fn new() -> Drawing
        ensures a_new_drawing_is_blank { drawn result ≡ blank }
    {
        Drawing {
            sections: 0,
            links: FixedList::new(Link {
                a: 0,
                b: 0,
                points: 0,
            }),
            fouls: FixedList::new(Foul {
                a: 0,
                b: 0,
                c: 0,
                d: 0,
            }),
        }
    }

    // Adds `k` sections, numbered on from those that are there.
    pub fn add_sections(&mut self, k: u8) -> Result<(), Refusal>
        ensures the_first_condition_met_declines { refused_by result ≡ sections_declined (drawn self.old) k }
        ensures its_sections_are_added_or_nothing { drawn self.new ≡ granted result (widened (drawn self.old) k) (drawn self.old) }
        ensures a_declined_call_leaves_the_drawing_as_it_was { AsItWas result self.old self.new }
    {
        if k > 32 - self.sections {
            return Err(Refusal::TooManySections);
        }
        self.sections += k;
        Ok(())
    }

    // Links the sections `a` and `b`, with `points` points set on the link.
    // The arguments are the numbers of a frame in their order: a `Link` made for the call would say no more.
    pub fn add_link(&mut self, a: u8, b: u8, points: u8) -> Result<(), Refusal>
        ensures the_first_condition_met_declines { refused_by result ≡ link_declined (drawn self.old) a b points }
        ensures its_link_is_added_or_nothing { drawn self.new ≡ granted result (with_link (drawn self.old) a b points) (drawn self.old) }
        ensures a_declined_call_leaves_the_drawing_as_it_was { AsItWas result self.old self.new }
    {
        if a >= self.sections || b >= self.sections {
            return Err(Refusal::NoSuchSection);
        }
        if a == b {
            return Err(Refusal::SameSectionTwice);
        }
        if points > 7 {
            return Err(Refusal::TooManyPoints);
        }
        if self.has_link(a, b) {
            return Err(Refusal::LinkedAlready);
        }
        if self.links().len() >= 64 {
            return Err(Refusal::TooManyLinks);
        }
        self.links.push(Link { a, b, points });
        Ok(())
    }

    // Notes that the link a-b crosses the link c-d on the ground.
    // The arguments are the numbers of a frame in their order: a `Foul` made for the call would say no more.
    pub fn add_foul(&mut self, a: u8, b: u8, c: u8, d: u8) -> Result<(), Refusal>
        ensures the_first_condition_met_declines { refused_by result ≡ foul_declined (drawn self.old) a b c d }
        ensures its_foul_is_added_or_nothing { drawn self.new ≡ granted result (with_foul (drawn self.old) a b c d) (drawn self.old) }
        ensures a_declined_call_leaves_the_drawing_as_it_was { AsItWas result self.old self.new }
    {
        let foul = Foul { a, b, c, d };
        let n = self.sections;
        if a >= n || b >= n || c >= n || d >= n {
            return Err(Refusal::NoSuchSection);
        }
        if !self.has_link(a, b) || !self.has_link(c, d) {
            return Err(Refusal::NotALink);
        }
        if same_link((a, b), (c, d)) {
            return Err(Refusal::SameLinkTwice);
        }
        if self.has_foul(&foul) {
            return Err(Refusal::FouledAlready);
        }
        if self.fouls().len() >= 32 {
            return Err(Refusal::TooManyFouls);
        }
        self.fouls.push(foul);
        Ok(())
    }

    // The layout as it was drawn.
    pub fn finish(self) -> Layout
        ensures the_layout_is_what_was_drawn { laid result ≡ drawn self }
        ensures every_layout_keeps_its_laws { LayoutLaws result }
        ensures every_link_runs_both_ways { BothWays (drawn self) }
    {
        let ways = chart(self.links());
        Layout {
            drawing: self,
            ways,
        }
    }
}
