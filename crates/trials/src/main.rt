// The planner's parts against an enumeration of all sheets and a plain book, on small throats that a fixed generator picks.
#![tactic(auto)]

mod below;
mod book;
mod call;
mod calls;
mod counted;
mod desk;
mod dice;
mod known;
mod oracle;
mod problem;
mod question;
mod questions;
mod tally;
mod throat;

use crate::calls::Calls;
use crate::dice::Dice;
use crate::questions::Questions;
use anyhow::ensure;

fn main(rt: HostRuntime) -> anyhow::Result<()> {
    let mut dice = Dice { state: 1 };
    let mut questions = Questions::default();
    for _ in 0..6000 {
        questions.ask_next(&mut dice, rt.alloc())?;
    }
    questions.tell(&rt)?;
    let mut calls = Calls::none_yet();
    for _ in 0..500 {
        calls.list_next(&mut dice, rt.alloc())?;
    }
    calls.tell(&rt)?;
    ensure!(
        questions.all_agree() && calls.all_agree(),
        "some answers do not agree"
    );
    Ok(())
}
