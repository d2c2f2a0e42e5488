// The highest outlet volume of late: document 02, No. 9.
#![tactic(auto)]

ghost use Rattle.std.specs.Prelude.{◌≡◌, ◌≤◌, ◌<◌, ◌+◌, ◌^◌, ◌&&◌, drop};
ghost use Rattle.window.specs.Window.{kept_of, highest_of, older, stays, as_answer, making, arrival, fits, counts_fit, others_blank, falls};
ghost use Rattle.window.specs.Arrivals.{MadeFor, Arrives};
ghost use Rattle.window.specs.Workers.{After};

use common::refusal::Refusal;

// The most steps that a window looks back on, and so the most volumes that it keeps.
pub const MOST: usize = 64;

// A volume that is kept, and how many steps ago it came.
#[derive(Clone, Copy, Debug, Default, PartialEq, Eq)]
pub struct Kept {
    pub volume: u64,
    pub age: u64,
}

impl Kept {
    // Whether it is still kept as a volume arrives: one of the last n with that one, and greater. That the volume has 64 bits is known here,
    // where it comes by value.
    #[tactic(auto, unfolding(crate::specs::Window::stays))]
    fn stays(self, n: u64, volume: u64) -> bool
        requires { 1 ≤ n }
        ensures answers { result ≡ stays n volume self }
        ensures range { self.volume < 2 ^ 64 }
    {
        self.age < n - 1 && volume < self.volume
    }

    // A step later.
    fn older(self) -> Kept
        requires { self.age < 64 }
        ensures { result ≡ older self }
    {
        Kept {
            age: self.age + 1,
            ..self
        }
    }
}

// Made for n steps. The first places hold those of the last n volumes that no later one equals or exceeds, the oldest first; the others
// are zero, which 15 judges.
#[derive(Clone, Copy, Debug, PartialEq, Eq)]
pub struct Window {
    pub n: u64,
    pub count: usize,
    pub kept: [Kept; MOST],
}

impl Window {
    // An empty window for the last n steps, and 0, the greatest of no volumes. 15 for n outside 1..64, and again at each arrival.
    #[tactic(auto, unfolding(crate::specs::Window::making, crate::specs::Window::highest_of))]
    pub fn make(n: u64) -> (Window, Result<u64, Refusal>)
        ensures answers { as_answer result.0 result.1 ≡ making n }
        ensures keeps { MadeFor n (as_answer result.0 result.1) }
    {
        let window = Window {
            n,
            count: 0,
            kept: [Kept::default(); MOST],
        };
        if !(1..=MOST as u64).contains(&n) {
            return (window, Err(Refusal::BadWindow));
        }
        (window, Ok(0))
    }

    // The greatest of the last n volumes with this one, or of all while fewer have come. 15 where no making for n in 1..64 and no arrivals
    // leave the window, which is then unchanged.
    pub fn arrive(&mut self, volume: u64) -> Result<u64, Refusal>
        ensures answers { as_answer self.new result ≡ arrival self.old volume }
        ensures keeps { Arrives self.old volume (as_answer self.new result) }
    {
        let after = self.after(volume)?;
        *self = after;
        Ok(self.highest())
    }

    // The window after a volume, in one pass over what is kept, on which it is judged.
    #[tactic(auto, unfolding(crate::specs::Window::is_reached))]
    fn after(&self, volume: u64) -> Result<Window, Refusal>
        ensures { After self.now volume result }
    {
        if !self.fits() {
            return Err(Refusal::BadWindow);
        }
        let mut next = [Kept::default(); MOST];
        let mut count = 0;
        for i in 0..self.count {
            if !self.falls_at(i) {
                return Err(Refusal::BadWindow);
            }
            let kept = self.kept[i];
            if kept.stays(self.n, volume) {
                next[count] = kept.older();
                count += 1;
            }
        }
        next[count] = Kept { volume, age: 0 };
        Ok(Window {
            n: self.n,
            count: count + 1,
            kept: next,
        })
    }

    // Whether n, the count, the oldest age and the places that are not in use are as a window has them.
    #[tactic(auto, unfolding(crate::specs::Window::fits))]
    fn fits(&self) -> bool
        ensures { result ≡ fits self.now }
    {
        self.counts_fit() && self.others_blank()
    }

    #[tactic(auto, unfolding(crate::specs::Window::counts_fit))]
    fn counts_fit(&self) -> bool
        ensures { result ≡ counts_fit self.now }
    {
        (1..=MOST as u64).contains(&self.n) && self.count <= MOST && self.kept[0].age < self.n
    }

    fn others_blank(&self) -> bool
        requires { self.now.count ≤ 64 }
        ensures { result ≡ others_blank self.now }
    {
        self.kept[self.count..]
            .iter()
            .all(|&kept| kept == Kept::default())
    }

    // Whether the volume at this place is greater and older than the next one, and the last one has just come.
    fn falls_at(&self, i: usize) -> bool
        requires here { i < self.now.count }
        requires places { self.now.count ≤ 64 }
        ensures { falls (drop i (kept_of self.now)) ≡ (result && falls (drop (i + 1) (kept_of self.now))) }
    {
        let kept = self.kept[i];
        if i + 1 == self.count {
            return kept.age == 0;
        }
        let next = self.kept[i + 1];
        next.volume < kept.volume && next.age < kept.age
    }

    // The oldest kept.
    #[tactic(auto, unfolding(crate::specs::Window::highest_of))]
    fn highest(&self) -> u64
        ensures { result ≡ highest_of self.now }
    {
        self.kept[0].volume
    }
}
