use crate::machine::Machine;
use frames::cutter::Cutter;

pub mod make;
pub mod print;
pub mod take;

// Takes an input byte by byte, cuts it into lines, and does each line as soon as it is ended.
#[derive(Drop)]
pub struct Intake<R, S, Q> {
    cutter: Cutter,
    machine: Machine<R, S, Q>,
}
