// A list of inflows into one store, one call after the other, up to its end or to the first that is refused.
use crate::course::Course;
use common::refusal::Refusal;
use curve::store::{Store, Taken};
use std::io;
use testing::chance::Chance;
use testing::checksum::Checksum;
use testing::refusals;

// A line: the course, the store at the start, how many inflows were accepted, the number of the refusal, the content at the end, and the
// checksum of contents and outflows.
pub fn row(rt: &impl Print, course: Course, start: Store, count: u64) -> io::Result<()> {
    let mut series = Series {
        store: start,
        taken: 0,
        sum: Checksum::default(),
    };
    let ended = series.take(course, count);
    let Store { a, g, content } = start;
    println!(rt;
        "{course} {a} {g} {content} {} {} {} {}",
        series.taken,
        refusals::told(&ended)[0],
        series.store.content,
        series.sum
    )
}

#[derive(Clone, Copy)]
struct Series {
    store: Store,
    taken: u64,
    sum: Checksum,
}

impl Series {
    fn take(&mut self, course: Course, count: u64) -> Result<(), Refusal> {
        let mut chance = Chance::new();
        for _ in 0..count {
            let inflow = course.inflow(self.store, &mut chance);
            let Taken { store, outflow } = self.store.take(inflow);
            self.sum.add_row(&[store.content, outflow?]);
            self.store = store;
            self.taken = self.taken.saturating_add(1);
        }
        Ok(())
    }
}
