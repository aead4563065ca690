ghost use Rattle.std.specs.Prelude.{◌≡◌, ◌≤◌};
ghost use Rattle.track.specs.Layouts.{sections_of, look, fouled, Neighbours};

use crate::foul::Foul;
use crate::layout::Layout;

impl Layout {
    #[tactic(auto, unfolding(crate::specs::Layouts::sections_of))]
    pub fn sections(&self) -> u8
        ensures how_many_sections_there_are { result ≡ sections_of self.now }
        ensures at_most_thirty_two { result ≤ 32 }
    {
        self.drawing.sections()
    }

    // The points on the way from `a` to `b`, if a link leads there.
    pub fn points(&self, a: u8, b: u8) -> Option<u8>
        ensures the_points_of_the_link { result ≡ look self.now a b }
    {
        self.ways.get(usize::from(a))?.points_to(b)
    }

    // The sections that a link leads to from `a`, in rising order.
    pub fn neighbours(&self, a: u8) -> &[u8]
        ensures the_linked_sections_in_rising_order { Neighbours self.now a result.now }
    {
        if a >= self.drawing.sections() {
            return &[];
        }
        self.ways[usize::from(a)].ends()
    }

    // Whether the links a-b and c-d cross on the ground. They are named by their ends: a `Foul` made for the call would say no more.
    #[tactic(auto, unfolding(crate::specs::Layouts::fouled))]
    pub fn fouls(&self, a: u8, b: u8, c: u8, d: u8) -> bool
        ensures whether_the_links_foul { result ≡ fouled self.now a b c d }
    {
        self.drawing.has_foul(&Foul { a, b, c, d })
    }
}
