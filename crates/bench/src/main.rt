// The walk and the table search on growing throats: what they answer, and with the argument `run` how long they take.
#![tactic(auto)]

mod answers;
mod case;
mod places;
mod report;
mod times;

use crate::answers::Answers;
use crate::case::{CASES, Case};
use crate::report::Report;
use crate::times::Times;
use anyhow::anyhow;
use rules::following::Following;
use scales::steps::Steps;
use sheets::asked::Asked;
use sheets::everyone::everyone;
use sheets::pose::ask;
use std::env;
use table::table::Table;
use walk::walk::Walk;

fn run_case<T: Report>(rt: &HostRuntime, report: &T, case: &Case) -> anyhow::Result<()> {
    println!(rt; "{case}")?;
    let mut cells: Vec<Option<u16>> = vec![in rt.alloc(); None; case.cells()]?;
    let layout = case
        .layout()
        .map_err(|_| anyhow!("the throat is declined"))?;
    let roster = case
        .roster(&layout)
        .map_err(|_| anyhow!("a train is declined"))?;
    let question = ask(&layout, &roster, everyone(&roster), case.steps).map_err(|_| anyhow!(
        "the question is declined"
    ))?;
    let asked = Asked {
        rule: &Following,
        scale: &Steps,
        question: &question,
    };
    if case.walked {
        let mut walk = Walk::new(3).unwrap();
        report.tell(rt, "walk", &mut walk, &asked, cells.as_mut_slice())?;
    }
    let mut table = Table::new(rt.alloc())?;
    report.tell(rt, "table", &mut table, &asked, cells.as_mut_slice())
}

fn run_all<T: Report>(rt: &HostRuntime, report: &T) -> anyhow::Result<()> {
    for case in &CASES {
        run_case(rt, report, case)?;
    }
    Ok(())
}

fn asked_to_run(rt: &HostRuntime) -> anyhow::Result<bool> {
    Ok(env::args(rt)?.skip(1).any(|arg| arg.as_str() == "run"))
}

fn main(rt: HostRuntime) -> anyhow::Result<()> {
    if asked_to_run(&rt)? {
        run_all(&rt, &Times)
    } else {
        run_all(&rt, &Answers)
    }
}
