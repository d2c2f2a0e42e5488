// Snow: calls at what it turns on, in full; SN at the ends of its range and beside them, in frost, thaw and heat; and decades of frost.
use crate::calls::{self, Call};
use crate::{basins, series};
use common::weather::Weather;
use std::io;
use subbasin::record::SubBasin;
use testing::chance::Chance;
use testing::checksum::Checksum;
use testing::climate::Climate;
use testing::lines::Row;
use testing::{refusals, rows};

// The greatest SN: 2^40.
const MARK: u64 = 1099511627776;

// The place of SN.
const SN: usize = 25;

pub fn rows(rt: &impl Print) -> io::Result<()> {
    for (words, rain, temperature) in CASES {
        let mut call = Call {
            record: basins::snowy(basins::case_a(), words),
            weather: Weather {
                rain,
                pan: 2000,
                temperature,
            },
        };
        let _ = call.print(rt)?;
    }
    for sn in SNOWS {
        for (f, threshold, temperatures) in HILLS {
            for temperature in temperatures {
                let record = basins::snowy(basins::middling(), [f, threshold, sn]);
                print!(rt; "snow {sn} {f} {threshold} {temperature}")?;
                rains(rt, record, temperature)?;
            }
        }
    }
    let none = basins::snowy(basins::case_a(), [4500, 750, 0]);
    let high = basins::snowy(basins::middling(), [4500, 750, MARK - 50000000]);
    decades(rt, "from none", none)?;
    decades(rt, "to the mark", high)
}

// F, threshold and SN in case A's sub-basin, rain and temperature.
const CASES: [([u64; 3], u64, i64); 14] = [
    // One below the threshold, at it and one above.
    ([4500, 750, 26000], 1000, 749),
    ([4500, 750, 26000], 1000, 750),
    ([4500, 750, 26000], 1000, 751),
    // All melts, and all but 4 µm.
    ([4500, 750, 26000], 0, 6528),
    ([4500, 750, 26000], 0, 6527),
    // Melt above 1,000,000 µm waits, with rain and without.
    ([20000, 0, 3000000], 1000000, 60000),
    ([20000, 0, 3000000], 400000, 60000),
    ([20000, 0, 3000000], 0, 60000),
    // Rain of which 300,000 µm still fit, rain of which none fits, and at the threshold, where all is P.
    ([4500, 750, MARK - 300000], 1000000, -80000),
    ([4500, 750, MARK], 1000000, 749),
    ([4500, 750, MARK], 1000000, 750),
    // Snow that lies, whatever the heat.
    ([0, 750, 26000], 1000, 749),
    ([0, 750, 26000], 1000, 60000),
    ([0, 0, MARK], 1000, 60000),
];

const SNOWS: [u64; 5] = [0, 1, MARK - 1, MARK, MARK + 1];

// F, threshold, and the least temperature, one below the threshold, the threshold, one above, and the greatest.
const HILLS: [(u64, u64, [i64; 5]); 2] = [
    (4500, 0, [-80000, -1, 0, 1, 60000]),
    (20000, 10000, [-80000, 9999, 10000, 10001, 60000]),
];

// The refusal number, SN after no rain, 1 µm and the most, and the checksum of the answers.
fn rains(rt: &impl Print, record: SubBasin, temperature: i64) -> io::Result<()> {
    let mut sum = Checksum::default();
    let mut row = [0; 4];
    for (k, rain) in [0, 1, 1000000].into_iter().enumerate() {
        let mut call = Call {
            record,
            weather: Weather {
                rain,
                pan: 2000,
                temperature,
            },
        };
        let given = call.take();
        calls::add(&mut sum, &given, &call.record);
        row[0] = refusals::told(&given)[0];
        row[k + 1] = rows::at(&call.record, SN);
    }
    println!(rt; "{} {sum}", Row(&row))
}

// Thirty years of days in frost, then two more in full, and a third at 10 °C.
fn decades(rt: &impl Print, name: &str, start: SubBasin) -> io::Result<()> {
    let mut record = start;
    let mut chance = Chance::new();
    let sum = series::run(rt, &mut record, Climate::Frost, &mut chance, 11000)?;
    let frost = [0, 1].map(|i| Climate::Frost.weather(i, chance.draws()));
    let thaw = Weather {
        temperature: 10000,
        ..frost[1]
    };
    for weather in [frost[0], frost[1], thaw] {
        let mut call = Call { record, weather };
        let _ = call.print(rt)?;
        record = call.record;
    }
    println!(rt; "decades {name} {sum}")
}
