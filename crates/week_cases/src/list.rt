// Lists of lines, drawn.
use arrayvec::ArrayVec;
use basin_testing::weather::{self, Fault};
use forcing::list::Line;
use testing::chance::Chance;
use testing::climate::Climate;

pub type List = ArrayVec<Line, 2048>;

// 32 lines in the weather of each spell; there are none past the 2,048th.
pub fn drawn(long: usize, chance: &mut Chance) -> List {
    let from = chance.x % 160;
    let mut lines = List::new();
    for k in 0..long {
        if lines.is_full() {
            break;
        }
        lines.push(weather::line(from.saturating_add(k as u64), chance.draws()));
    }
    lines
}

// Seven ordinary steps of n lines each, from step i of their course on.
pub fn course(n: u64, i: u64, chance: &mut Chance) -> List {
    let mut lines = List::new();
    for step in 0..7 {
        for _ in 0..n {
            if lines.is_full() {
                break;
            }
            let line = weather::line_in(Climate::Ordinary, i.saturating_add(step), chance.draws());
            lines.push(line);
        }
    }
    lines
}

// Puts a fault into a line, where the list has one there.
pub fn spoil(lines: &mut List, at: usize, fault: Fault) {
    if let Some(line) = lines.get_mut(at) {
        *line = fault.put(*line);
    }
}
