// Snow in a basin: years whose winter lies and then melts through lags and reaches, and decades of frost with a hot end.
use crate::series;
use basin::state::Basin;
use basin_testing::checksum::add_basin;
use basin_testing::{calls, weather};
use std::io;
use testing::chance::Chance;
use testing::checksum::Checksum;
use testing::choices::Choice;
use testing::climate::Climate;
use testing::drafts::{Plan, Shape};

// 50 m below the greatest SN.
const HIGH: u64 = 1099511627776 - 50000000;

pub fn rows(rt: &impl Print) -> io::Result<()> {
    let mut chance = Chance::new();
    for (shape, n, m) in [(Shape::Chain, 3, 2), (Shape::Tree, 7, 5)] {
        let plan = Plan::new(Choice::Ordinary, shape, n, m);
        let mut b = calls::started(plan, &mut chance);
        let sum = year(rt, &mut b, &mut chance)?;
        println!(rt; "year {shape} {n} {m} {sum}")?;
    }
    let plan = Plan::chain(Choice::Ordinary, 3, 2);
    let mut b = calls::started(plan, &mut chance);
    decades(rt, "from the file", &mut b, &mut chance)?;
    let mut high = calls::started(plan, &mut chance);
    for s in &mut high.subs[..3] {
        s.contents.sn = HIGH;
    }
    decades(rt, "to the mark", &mut high, &mut chance)
}

// The ordinary course from frost to thaw, six days for each of its steps; every twelfth is printed.
fn year(rt: &impl Print, b: &mut Basin, chance: &mut Chance) -> io::Result<Checksum> {
    let mut sum = Checksum::default();
    for day in 0..192 {
        let lines = weather::drawn_in(Climate::Ordinary, day / 6, chance);
        let given = b.step(lines, b.n);
        if day % 12 == 0 {
            series::print(rt, day, &given)?;
        }
        series::add(&mut sum, &given, b);
    }
    Ok(sum)
}

// 11,000 days of frost, of which every thousandth and the last are printed, and ten hot ones.
fn decades(rt: &impl Print, name: &str, b: &mut Basin, chance: &mut Chance) -> io::Result<()> {
    let mut sum = Checksum::default();
    for day in 0..11010 {
        let climate = if day < 11000 {
            Climate::Frost
        } else {
            Climate::Dry
        };
        let given = b.step(weather::drawn_in(climate, day, chance), b.n);
        if day % 1000 == 0 || 10999 <= day {
            series::print(rt, day, &given)?;
        }
        series::add_report(&mut sum, &given);
    }
    add_basin(&mut sum, b);
    println!(rt; "decades {name} {sum}")
}
