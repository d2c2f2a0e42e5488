// 9's limits of a basin, part by part: document 01, "Who sent it".
ghost use Rattle.std.specs.Prelude.{◌≡◌};
ghost use Rattle.basin.specs.Limits.{counts_in, subs_used, subs_blank, reaches_used, reaches_blank, others_in};
ghost use Rattle.basin.specs.Workers.{CountsIn, records_in};

use crate::state::{Basin, MOST_REACHES, MOST_SUBS};

// Each but the first asks that N and M are inside their limits: no fact of the type, as 9 judges what a host hands in.
impl Basin {
    // Whether all is inside its limits but the sub-basins in use, which their own steps judge.
    pub(crate) fn others_allowed(&self) -> bool
        ensures { result ≡ others_in self.now }
    {
        self.counts_allowed() && self.records_allowed()
    }

    // Whether the sub-basins in use are inside their limits.
    pub(crate) fn subs_used(&self) -> bool
        requires { CountsIn self.now.n self.now.m }
        ensures { result ≡ subs_used self.now.m self.now.n self.now.subs }
    {
        self.subs[..self.n as usize]
            .iter()
            .all(|s| s.allowed(self.m))
    }

    #[tactic(auto, unfolding(crate::specs::Limits::counts_in))]
    fn counts_allowed(&self) -> bool
        ensures { result ≡ counts_in self.now.n self.now.m }
    {
        (1..=MOST_SUBS).contains(&self.n) && self.m <= MOST_REACHES
    }

    // The reaches, and the records that are not in use.
    #[tactic(auto, unfolding(crate::specs::Workers::records_in))]
    fn records_allowed(&self) -> bool
        requires { CountsIn self.now.n self.now.m }
        ensures { result ≡ records_in self.now }
    {
        self.subs_blank() && self.reaches_used() && self.reaches_blank()
    }

    // One line each, this and `reaches_blank`: a trait with its law for the two would be longer.
    fn subs_blank(&self) -> bool
        requires { CountsIn self.now.n self.now.m }
        ensures { result ≡ subs_blank self.now.n self.now.subs }
    {
        self.subs[self.n as usize..].iter().all(|s| s.is_blank())
    }

    fn reaches_blank(&self) -> bool
        requires { CountsIn self.now.n self.now.m }
        ensures { result ≡ reaches_blank self.now.m self.now.reaches }
    {
        self.reaches[self.m as usize..].iter().all(|r| r.is_blank())
    }

    fn reaches_used(&self) -> bool
        requires { CountsIn self.now.n self.now.m }
        ensures { result ≡ reaches_used self.now.m self.now.reaches }
    {
        self.reaches[..self.m as usize]
            .iter()
            .enumerate()
            .all(|(j, r)| r.allowed(j as u64 + 1, self.m))
    }
}
