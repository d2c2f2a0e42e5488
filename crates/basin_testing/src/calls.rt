// Loaded basins.
use basin::file;
use basin::state::Basin;
use testing::chance::Chance;
use testing::choices::Choice;
use testing::drafts::Plan;

// The basin of a drafted file. A refused load stands for zeros.
pub fn started(plan: Plan, chance: &mut Chance) -> Basin {
    file::load(plan.draft(chance).as_slice()).unwrap_or_default()
}

// Of case A of document 01.
pub fn case_a() -> Basin {
    started(Plan::chain(Choice::CaseA, 1, 0), &mut Chance::new())
}
