// Answers lines of frames: reads them from a reader, and writes to a writer what they print.
#![tactic(auto)]

mod answer;
mod send;
pub mod serve;
mod serving;
