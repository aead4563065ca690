use track::foul::Foul;
use track::link::Link;

mod draw;
mod pick;
mod read;

// A throat as the trials have it: how many sections there are, the links and the fouls.
#[derive(Drop)]
pub struct Throat {
    pub sections: u8,
    pub links: Vec<Link>,
    pub fouls: Vec<Foul>,
}
