// Steps that go astray: a count that isn't N, bad lines, and a basin that is outside its limits.
use basin::state::Basin;
use basin_testing::places;
use basin_testing::weather::Fault;
use forcing::list::Line;
use testing::chance::{self, Chance};

// What a step takes.
#[derive(Clone, Copy)]
pub struct Call {
    pub basin: Basin,
    pub lines: [Line; 32],
    pub count: u64,
}

// One of 28 faults, drawn: 5 of the count, 13 of a line, and otherwise of the basin, twice with another.
pub fn astray(b: &Basin, lines: &[Line; 32], chance: &mut Chance) -> Call {
    let k = chance.x % 28;
    let [x, y] = chance.draws::<2>();
    let mut call = Call {
        basin: *b,
        lines: *lines,
        count: b.n,
    };
    match k {
        0..=4 => call.count = chance::one_of(wrong_counts(b.n), k),
        5..=17 => spoil(
            &mut call.lines,
            b.n,
            chance::one_of(Fault::ALL, k - 5),
            [x, y],
        ),
        18 => {
            places::damage(&mut call.basin, [x, y]);
            call.count = chance::one_of(wrong_counts(b.n), y);
        }
        19 => {
            places::damage(&mut call.basin, [x, y]);
            spoil(&mut call.lines, b.n, Fault::ALL[0], [x, y]);
        }
        _ => places::damage(&mut call.basin, [x, y]),
    }
    call
}

fn wrong_counts(n: u64) -> [u64; 5] {
    [n % 33 + 1, (n % 33 + 32) % 33, 0, 33, u64::MAX]
}

// Two bad lines among the first n and the one after them.
fn spoil(lines: &mut [Line; 32], n: u64, fault: Fault, [x, y]: [u64; 2]) {
    let ends = n % 33 + 1;
    let first = (x % ends % 32) as usize;
    let second = (y % ends % 32) as usize;
    let line = lines[first];
    lines[first] = fault.put(line);
    lines[second] = chance::one_of(Fault::ALL, y / 64).put(line);
}
