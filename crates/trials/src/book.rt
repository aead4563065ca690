use roster::train::Train;

mod keep;
mod pick;

// The trains in rising number and the closed sections, as the trials have them.
#[derive(Drop)]
pub struct Book {
    pub trains: Vec<Train>,
    pub closed: Vec<u8>,
}
