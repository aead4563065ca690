// Frames as lines of text: reading them, printing the replies, and cutting bytes into lines.
#![tactic(auto)]

pub mod cutter;
mod digits;
pub mod fields;
pub mod frame;
mod kind;
mod line;
pub mod part;
pub mod plan;
pub mod print;
pub mod read;
