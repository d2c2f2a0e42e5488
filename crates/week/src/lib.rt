// The week in one call: document 02, No. 2.
#![tactic(auto)]

ghost use Rattle.std.specs.Prelude.{◌≡◌, ◌≤◌, length, IfOk, IfErr};
ghost use Rattle.basin.specs.Week.{step_lines, joined, as_ran, week_call, WeekJudged};
ghost use Rattle.week.specs.Workers.{Fits, Refuses, SumsFit};

use basin::state::Basin;
use basin::step::Report;
use basin::week::Week;
use common::refusal::Refusal;
use curve::capacity::{self, Roots};
use forcing::list::Line;

// The most steps of a week.
pub const MOST_STEPS: u64 = 1000;

// The steps of a list of lines, N lines each, in order up to the first that is refused. 9 is judged before the length, and that before
// the lines.
pub fn week(b: &mut Basin, lines: &[Line]) -> Week
    ensures answers { as_ran b.new result ≡ week_call b.old lines.now }
    ensures judges { WeekJudged b.old lines.now (as_ran b.new result) }
{
    let roots = capacity::printed_roots();
    week_with(&roots, b, lines)
}

// The same with a table of roots that is lent (curve::capacity). `week` is this with the printed one, so a host needs none.
pub fn week_with(roots: &Roots, b: &mut Basin, lines: &[Line]) -> Week
    ensures answers { as_ran b.new result ≡ week_call b.old lines.now }
    ensures judges { WeekJudged b.old lines.now (as_ran b.new result) }
{
    let mut week = Week::default();
    if let Err(why) = judge(*b, lines.len()) {
        week.refusal = Some(why.into());
        return week;
    }
    let n = b.n;
    for step in lines.chunks_exact(n as usize) {
        match b.step_with(roots, lines_of(step), n) {
            Ok(report) => {
                week.count += 1;
                week.report = join(week.report, report);
            }
            Err(refused) => {
                week.refusal = Some(refused);
                return week;
            }
        }
    }
    week
}

// Whether a list of so many lines can be taken: 9, and then 5. The basin is a copy: of a lent one (tried) nothing tells how long the lag lines
// in its array are, on which the balance rests.
fn judge(b: Basin, long: usize) -> Result<(), Refusal>
    ensures fits { IfOk result (λ _. Fits b long) }
    ensures refuses { IfErr result (Refuses b long) }
{
    if !b.allowed() {
        return Err(Refusal::BadBasin);
    }
    let lines = long as u64;
    if MOST_STEPS * b.n < lines || !lines.is_multiple_of(b.n) {
        return Err(Refusal::LineCount);
    }
    Ok(())
}

// The lines of a step, in its 32 places.
fn lines_of(step: &[Line]) -> [Line; 32]
    requires { length step.now ≤ 32 }
    ensures { result ≡ step_lines (length step.now) step.now }
{
    let none = Line::default(); // here, as of one made in the closure a proof knows nothing
    std::array::from_fn(|k| step.get(k).copied().unwrap_or(none))
}

// Summed reports, with the last one's content.
fn join(sums: Report, last: Report) -> Report
    requires { SumsFit sums last }
    ensures { result ≡ joined sums last }
{
    Report {
        rain: sums.rain + last.rain,
        evapotranspiration: sums.evapotranspiration + last.evapotranspiration,
        outlet: sums.outlet + last.outlet,
        content: last.content,
        estimated: sums.estimated + last.estimated,
    }
}
