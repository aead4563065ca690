// Sheets read as words, one section for each train and step, and what every search of a single group shares.
#![tactic(auto)]

pub mod board;
pub mod choose;
pub mod chosen;
pub mod found;
pub mod group;
pub mod rests;
pub mod turn;
pub mod written;
