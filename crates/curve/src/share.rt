// A share, in parts of 65,536: a whole number from 0 to 65,536. A contract sees the number.
ghost use Rattle.std.specs.Prelude.{◌≡◌, ℕ, ◌≤◌};
ghost use Rattle.common.specs.Shares.{one};
ghost use Rattle.curve.specs.Capacity.{by};
ghost use Rattle.curve.specs.Workers.{IsShare};

use common::refusal::Refusal;
use common::shares::ONE;
use std::marker::Model;

#[derive(Clone, Copy)]
pub struct Share {
    pub parts: u64,
}

impl Model for Share {
    ghost Value = { ℕ };

    ghost view = { λ s. s.parts };

    ghost invariant = { λ s. s.parts ≤ one };

    ghost inverse = { λ n. record { parts = n } };
}

impl TryFrom<u64> for Share {
    type Error = Refusal;

    ghost try_from_gives = { IsShare };

    fn try_from(parts: u64) -> Result<Share, Refusal> {
        if ONE < parts {
            return Err(Refusal::OutOfRange);
        }
        Ok(Share { parts })
    }
}

impl Share {
    // The whole.
    pub fn one() -> Share
        ensures { result ≡ one }
    {
        Share { parts: ONE }
    }

    // It times another, over 65,536. No `*`: it rounds down.
    pub fn by(self, r: Share) -> Share
        ensures { result ≡ by self r }
    {
        Share {
            parts: self.parts * r.parts / ONE,
        }
    }
}
