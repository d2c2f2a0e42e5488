// The load call: good files of every N and M, every word below and above its range, every length, and files damaged at random. What
// it must print comes from the second model: `model expect file_cases`.
#![tactic(auto)]

mod cases;
mod damage;
mod loads;

use std::io;
use testing::choices::Choice;
use testing::drafts::Plan;

fn main(rt: HostRuntime) -> io::Result<()> {
    for choice in [Choice::Least, Choice::Most, Choice::End, Choice::Any] {
        cases::every_size(&rt, choice)?;
    }
    cases::sizes(&rt, Plan::chosen(Choice::Any, 1, 0))?;
    cases::sizes(&rt, Plan::chosen(Choice::Any, 2, 3))?;
    cases::sizes(&rt, Plan::chosen(Choice::Any, 32, 31))?;
    cases::counts(&rt)?;
    for choice in [Choice::Any, Choice::Most] {
        let plan = Plan::chosen(choice, 2, 2);
        cases::words(&rt, plan, |at, told| cases::line(&rt, at, told))?;
    }
    for choice in [Choice::Least, Choice::Most, Choice::Any] {
        cases::words(&rt, Plan::chosen(choice, 32, 31), |_, _| Ok(()))?;
    }
    cases::shares(&rt)?;
    cases::nexts(&rt)?;
    damage::several(&rt)?;
    damage::bytes(&rt)
}
