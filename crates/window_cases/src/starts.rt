// Windows to begin with, by name.
use crate::course::Course;
use testing::chance::Chance;
use window::Window;

pub fn all() -> [(&'static str, Window); 10] {
    [
        ("one", after(1, &[5])),
        ("two", after(2, &[5, 3])),
        ("none", after(5, &[])),
        ("zero", after(64, &[0])),
        ("full", along(64, Course::Falling, 300)),
        ("last", along(63, Course::Falling, 63)),
        ("part", along(64, Course::Falling, 10)),
        ("gaps", along(64, Course::Saw, 40)),
        ("few", along(10, Course::Few, 30)),
        ("top", after(3, &[u64::MAX, u64::MAX - 1])),
    ]
}

fn after(n: u64, volumes: &[u64]) -> Window {
    let (mut window, _) = Window::make(n);
    for volume in volumes {
        let _ = window.arrive(*volume);
    }
    window
}

// After so many volumes of a course.
fn along(n: u64, course: Course, count: u64) -> Window {
    let (mut window, _) = Window::make(n);
    let mut chance = Chance::new();
    let mut volume = 0;
    for k in 0..count {
        volume = course.volume(k, volume, &mut chance);
        let _ = window.arrive(volume);
    }
    window
}
