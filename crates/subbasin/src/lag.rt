// The lag line: document 01, "The store law".
ghost use Rattle.std.specs.Prelude.{◌≡◌, ◌≤◌};
ghost use Rattle.subbasin.specs.Lag.{line_in, leaving, entered, Lagged};

use crate::record::LagLine;
use common::amounts;

const MOST_WAITING: u64 = 1 << 50;

impl LagLine {
    // Whether no amount is above 2^50 and every unused place is zero.
    #[tactic(auto, unfolding(crate::specs::Lag::line_in))]
    pub(crate) fn allowed(&self) -> bool
        ensures { result ≡ line_in self.now }
    {
        amounts::up_to(MOST_WAITING, &self.waiting, 0)
            && amounts::up_to(0, &self.waiting, self.lag as usize)
    }

    // What leaves when the amount t enters: what entered as many steps ago as the lag says.
    #[tactic(auto, using(crate::proofs::lag::LagLaws::leaves_after_lag), unfolding(crate::specs::Lag::leaving))]
    pub(crate) fn leave(&self, t: u64) -> u64
        requires { self.now.lag ≤ 15 }
        ensures answered { result ≡ leaving self.now t }
        ensures lagged { Lagged self.now t result }
    {
        let lag = self.lag;
        if lag == 0 {
            return t;
        }
        self.waiting[(lag - 1) as usize]
    }

    // The line once the amount t has entered: t and those before it, of which the lag's many wait on. By value, as document 01 has it.
    pub(crate) fn enter(self, t: u64) -> LagLine
        requires { self.lag ≤ 15 }
        ensures { result ≡ entered self t }
    {
        let lag = self.lag;
        let mut waiting = self.waiting;
        waiting.copy_within(..14, 1);
        waiting[0] = t;
        waiting[lag as usize..].fill(0);
        LagLine { lag, waiting }
    }
}
