use roster::roster::Roster;
use track::layout::Layout;

pub mod moves;

// What a group's trains are moved on: the rule and the scale, the layout, the roster with its closed sections, how many trains there are,
// and where they are to go.
// A joint position is eight bytes, of which the first `trains` count: one is made at every move, and it is copied in one piece and asks for no memory.
#[derive(Drop)]
pub struct Board<'a, S, R> {
    pub scale: &'a S,
    pub rule: &'a R,
    pub layout: &'a Layout,
    pub roster: &'a Roster,
    pub trains: usize,
    pub goal: [u8; 8],
}
