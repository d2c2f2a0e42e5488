// A window and its answers, as printed rows and in a checksum.
use common::refusal::Refusal;
use std::{fmt, io};
use testing::checksum::Checksum;
use testing::lines::Row;
use testing::refusals;
use window::Window;

// n, the count, and volume and age of all that is kept.
#[derive(Clone, Copy)]
pub struct Told<'a>(pub &'a Window);

impl fmt::Display for Told<'_> {
    fn fmt<W: fmt::Write>(&self, f: &mut fmt::Formatter<W>) -> fmt::Result {
        write!(f, " {} {}", self.0.n, self.0.count)?;
        for kept in self.0.kept.iter().take(self.0.count) {
            write!(f, " {} {}", kept.volume, kept.age)?;
        }
        Ok(())
    }
}

pub fn make(rt: &impl Print, n: u64) -> io::Result<Window> {
    let (window, given) = Window::make(n);
    println!(rt;
        "make {n}{}{}",
        Row(&refusals::with_value(given)),
        Told(&window)
    )?;
    Ok(window)
}

pub fn arrive(rt: &impl Print, window: &mut Window, volume: u64) -> io::Result<()> {
    let given = window.arrive(volume);
    println!(rt;
        "arrive {volume}{}{}",
        Row(&refusals::with_value(given)),
        Told(window)
    )
}

// Every number of the answer and of the window.
pub fn add(sum: &mut Checksum, given: Result<u64, Refusal>, window: &Window) {
    sum.add_row(&refusals::with_value(given));
    sum.add(window.n);
    sum.add(window.count as u64);
    for kept in &window.kept {
        sum.add(kept.volume);
        sum.add(kept.age);
    }
}
