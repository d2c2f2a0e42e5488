// Windows that are damaged: every number of the record changed, two places swapped, the places cut off, all ages raised. The volume 4
// into each, and a line for each kind of damage.
use crate::number::Number;
use crate::starts;
use crate::tally::Tally;
use std::{array, io};
use window::{Kept, MOST, Window};

const VOLUME: u64 = 4;

pub fn rows(rt: &impl Print) -> io::Result<()> {
    for (name, window) in &starts::all() {
        let volumes: [Number; MOST] = array::from_fn(Number::Volume);
        let ages: [Number; MOST] = array::from_fn(Number::Age);
        println!(rt; "damaged {name} n {}", changed(window, &[Number::N]))?;
        println!(rt;
            "damaged {name} count {}",
            changed(window, &[Number::Count])
        )?;
        println!(rt; "damaged {name} volumes {}", changed(window, &volumes))?;
        println!(rt; "damaged {name} ages {}", changed(window, &ages))?;
        println!(rt; "damaged {name} swapped {}", swapped(window))?;
        println!(rt; "damaged {name} cut {}", cut(window))?;
        println!(rt; "damaged {name} aged {}", aged(window))?;
    }
    Ok(())
}

// Each number one less and one more, at the ends of ranges, and as its neighbours are.
fn changed(window: &Window, numbers: &[Number]) -> Tally {
    let mut tally = Tally::default();
    for number in numbers {
        let v = number.at(window);
        let (less, more) = (v.wrapping_sub(1), v.wrapping_add(1));
        for other in [less, more, 0, 1, 2, 62, 63, 64, 65, u64::MAX] {
            tally.arrive(&number.put(window, other), VOLUME);
        }
        for beside in number.beside().into_iter().flatten() {
            tally.arrive(&number.put(window, beside.at(window)), VOLUME);
        }
    }
    tally
}

// Each two places.
fn swapped(window: &Window) -> Tally {
    let mut tally = Tally::default();
    for i in 0..MOST {
        for j in i + 1..MOST {
            let mut other = *window;
            other.kept.swap(i, j);
            tally.arrive(&other, VOLUME);
        }
    }
    tally
}

// Every count, with zeros from there on.
fn cut(window: &Window) -> Tally {
    let mut tally = Tally::default();
    for count in 0..=MOST {
        let mut other = *window;
        other.count = count;
        other.kept[count..].fill(Kept::default());
        tally.arrive(&other, VOLUME);
    }
    tally
}

fn aged(window: &Window) -> Tally {
    let mut tally = Tally::default();
    for by in 1..4 {
        let mut other = *window;
        for kept in other.kept.iter_mut().take(window.count) {
            kept.age = kept.age.wrapping_add(by);
        }
        tally.arrive(&other, VOLUME);
    }
    tally
}
