ghost use Rattle.std.specs.Prelude.{◌≡◌, ◌≤◌, true, length};
ghost use Rattle.track.specs.Links.{links_good, links_apart};
ghost use Rattle.track.specs.Fouls.{fouls_good, fouls_apart};

use crate::foul::Foul;
use crate::link::Link;
use crate::list::FixedList;

pub mod draw;
pub mod read;

// A layout that is still being drawn.
#[derive(Drop)]
pub struct Drawing {
    sections: u8,
    links: FixedList<Link, 64>,
    fouls: FixedList<Foul, 32>,
    ghost few: { sections ≤ 32 },
    ghost roomy: { length links ≤ 64 },
    ghost sound: { links_good sections links ≡ true },
    ghost apart: { links_apart links ≡ true },
    ghost roomier: { length fouls ≤ 32 },
    ghost placed: { fouls_good links fouls ≡ true },
    ghost once: { fouls_apart fouls ≡ true },
}
