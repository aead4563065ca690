mod act;
mod drawings;
mod lines;
mod plans;
mod questions;
mod rosters;
mod sides;
