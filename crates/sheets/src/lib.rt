// Sheets and questions: which sheets are lawful, what they cost, which comes first and which is best.
#![tactic(auto)]

pub mod agree;
pub mod asked;
pub mod everyone;
pub mod pose;
pub mod price;
pub mod question;
pub mod sheet;
