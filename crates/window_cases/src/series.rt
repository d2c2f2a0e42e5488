// 300 volumes of each course into windows small and large: a line for each, with the course, n, the checksum of all answers and windows,
// the last answer, and the window then.
use crate::course::Course;
use crate::told::{self, Told};
use std::io;
use testing::chance::Chance;
use testing::checksum::Checksum;
use window::Window;

pub fn rows(rt: &impl Print) -> io::Result<()> {
    for course in Course::ALL {
        for n in [1, 2, 3, 10, 63, 64] {
            row(rt, course, n)?;
        }
    }
    Ok(())
}

fn row(rt: &impl Print, course: Course, n: u64) -> io::Result<()> {
    let (mut window, made) = Window::make(n);
    let mut highest = made.unwrap_or(0);
    let mut sum = Checksum::default();
    let mut chance = Chance::new();
    let mut volume = 0;
    for k in 0..300 {
        volume = course.volume(k, volume, &mut chance);
        let given = window.arrive(volume);
        told::add(&mut sum, given, &window);
        highest = given.unwrap_or(0);
    }
    println!(rt; "series {course} {n} {sum} {highest}{}", Told(&window))
}
