// A group of trains split into parts: which part each train is in, and the first conflict between two parts.
// The specs have the course by which parts that conflict are joined.
#![tactic(auto)]

pub mod conflict;
pub mod parts;
