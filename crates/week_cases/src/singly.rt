// A week's steps taken singly, with what they answer put together.
use basin::state::Basin;
use basin::step::Report;
use basin::week::Week;
use common::refusal::{Refusal, Refused};
use forcing::list::Line;
use std::array;

pub fn week(b: &mut Basin, lines: &[Line]) -> Week {
    match judge(b, lines) {
        Ok(()) => steps(b, lines),
        Err(refused) => Week {
            refusal: Some(refused),
            ..Week::default()
        },
    }
}

// The refusal of a step with a wrong count, unless that is 5; and then the length's.
fn judge(b: &Basin, lines: &[Line]) -> Result<(), Refused> {
    let mut same = *b;
    match same.step(places(lines), b.n % 33 + 1) {
        Err(refused) if refused.why != Refusal::LineCount => return Err(refused),
        _ => {}
    }
    if b.n == 0 {
        return Err(Refusal::BadBasin.into());
    }
    let long = lines.len() as u64;
    if long % b.n != 0 || 1000 < long / b.n {
        return Err(Refusal::LineCount.into());
    }
    Ok(())
}

// Steps of N lines each; after a refused one there is none.
pub fn steps(b: &mut Basin, lines: &[Line]) -> Week {
    let mut week = Week::default();
    for here in lines.chunks((b.n as usize).max(1)) {
        match b.step(places(here), b.n) {
            Ok(report) => {
                week.count = week.count.wrapping_add(1);
                week.report = together(week.report, report);
            }
            Err(refused) => {
                week.refusal = Some(refused);
                break;
            }
        }
    }
    week
}

// The first lines in the 32 places of a step.
fn places(lines: &[Line]) -> [Line; 32] {
    array::from_fn(|k| lines.get(k).copied().unwrap_or_default())
}

fn together(sums: Report, last: Report) -> Report {
    Report {
        rain: sums.rain.wrapping_add(last.rain),
        evapotranspiration: sums
            .evapotranspiration
            .wrapping_add(last.evapotranspiration),
        outlet: sums.outlet.wrapping_add(last.outlet),
        content: last.content,
        estimated: sums.estimated.wrapping_add(last.estimated),
    }
}
