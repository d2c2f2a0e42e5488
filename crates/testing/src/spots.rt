// Where a number of a file or of a basin stands: the place in a sub-basin or in a reach, and the index of that sub-basin or reach, from 0.
ghost use Rattle.std.specs.Prelude.{◌<◌};

#[derive(Clone, Copy)]
pub enum Spot {
    N,
    M,
    Sub { index: usize, place: usize },
    Reach { index: usize, place: usize },
}

impl Spot {
    // Number `at` where N and M come first, then so many sub-basins and then the reaches, each of so many numbers.
    pub fn of(at: usize, subs: usize, sub: usize, reach: usize) -> Spot
        requires sub { 0 < sub }
        requires reach { 0 < reach }
    {
        if at == 0 {
            return Spot::N;
        }
        if at == 1 {
            return Spot::M;
        }
        let index = (at - 2) / sub;
        if index < subs {
            return Spot::Sub {
                index,
                place: (at - 2) % sub,
            };
        }
        let past = (at - 2).saturating_sub(subs.saturating_mul(sub));
        Spot::Reach {
            index: past / reach,
            place: past % reach,
        }
    }
}
