// The machine that does frames: it draws until the finish, and plans after it. And the intake, which takes the bytes of the lines.
#![tactic(auto)]

pub mod desk;
pub mod intake;
pub mod machine;
pub mod phase;
mod planning;
pub mod said;
