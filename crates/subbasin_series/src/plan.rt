// The series that are run: a line for each, with its name and its checksum.
use crate::choices::{choose, replaced};
use crate::{basins, series};
use std::io;
use subbasin::record::{self, SubBasin};
use testing::chance::Chance;
use testing::choices::Choice;
use testing::climate::Climate;
use testing::rows;

// The place of the first start.
const STARTS: usize = 17;

// A sub-basin in every weather.
pub fn weathers(rt: &impl Print, name: &str, start: SubBasin) -> io::Result<()> {
    for climate in Climate::ALL {
        let mut s = start;
        let sum = series::run(rt, &mut s, climate, &mut Chance::new(), 5000)?;
        println!(rt; "{name} {climate} {sum}")?;
    }
    Ok(())
}

// The words from a place on by choice.
const REPLACED: [(&str, Choice, usize); 4] = [
    ("words least", Choice::Least, 0),
    ("words most", Choice::Most, 0),
    ("starts least", Choice::Least, STARTS),
    ("starts most", Choice::Most, STARTS),
];

// The middling sub-basin with several numbers at their ends.
pub fn extremes(rt: &impl Print) -> io::Result<()> {
    for (name, choice, from) in REPLACED {
        let start = replaced(basins::middling(), choice, from..record::WORDS);
        extreme(rt, name, start)?;
    }
    extreme(rt, "one layer", basins::one_layer(70000, 25000))?;
    extreme(rt, "one layer least", basins::one_layer(1, 1))?;
    extreme(rt, "drains whole", basins::drains(32768, 32768))?;
    extreme(rt, "recessions least", basins::recessions(0))?;
    extreme(rt, "recessions most", basins::recessions(65535))?;
    extreme(
        rt,
        "no melt",
        basins::snowy(basins::middling(), [0, 10000, 3000000]),
    )?;
    extreme(
        rt,
        "most melt",
        basins::snowy(basins::middling(), [20000, 0, 3000000]),
    )?;
    extreme(rt, "brimming", basins::brimming(32768))
}

fn extreme(rt: &impl Print, name: &str, start: SubBasin) -> io::Result<()> {
    let mut s = start;
    let sum = series::run(rt, &mut s, Climate::Spells, &mut Chance::new(), 5000)?;
    println!(rt; "extreme {name} {sum}")
}

// The word at every place at its least, then at its most; the generator goes on from series to series.
pub fn ends(rt: &impl Print) -> io::Result<()> {
    let mut chance = Chance::new();
    for place in 0..record::WORDS {
        let mut least = replaced(basins::middling(), Choice::Least, place..place + 1);
        let mut most = replaced(basins::middling(), Choice::Most, place..place + 1);
        let first = series::run(rt, &mut least, Climate::Spells, &mut chance, 1000)?;
        let second = series::run(rt, &mut most, Climate::Spells, &mut chance, 1000)?;
        println!(rt; "ends {place} {first} {second}")?;
    }
    Ok(())
}

// Words and amounts in waiting are drawn, the channel store is empty; the generator goes on.
pub fn drawn(rt: &impl Print, name: &str, choice: Choice, climate: Climate) -> io::Result<()> {
    let mut chance = Chance::new();
    for k in 0..100 {
        let mut start = basins::case_a();
        choose(&mut start, choice, 0..rows::CHANNEL, &mut chance);
        let sum = series::run(rt, &mut start, climate, &mut chance, 1000)?;
        println!(rt; "{name} {k} {sum}")?;
    }
    Ok(())
}
