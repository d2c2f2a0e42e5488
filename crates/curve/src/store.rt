// The store law: document 01, "The store law", rounded as document 02, No. 6, has it. One store serves interflow, ground water, channel
// and reach.
ghost use Rattle.std.specs.Prelude.{◌≡◌, ◌↔◌, IsTrue, ◌+◌, ◌≤◌};
ghost use Rattle.curve.specs.Store.{outflow, as_released, store_call};
ghost use Rattle.curve.specs.Stray.{Strays};
ghost use Rattle.curve.specs.Workers.{StoreIn};

use common::refusal::Refusal;
use common::shares::ONE;

// The shares a of the inflow and g of the content, in parts of 65,536; the content in µm or m³.
#[derive(Clone, Copy)]
pub struct Store {
    pub a: u64,
    pub g: u64,
    pub content: u64,
}

// A store after its inflow, and its outflow; where it refuses, the store as it was.
#[derive(Clone, Copy)]
pub struct Taken {
    pub store: Store,
    pub outflow: Result<u64, Refusal>,
}

// The limits of a store call.
const MOST_INFLOW: u64 = 1 << 62;

pub const MOST_CONTENT: u64 = 1 << 56;

// Added before the division by ONE, so that it goes to nearest with halves up.
const HALF: u64 = ONE / 2;

impl Store {
    // Takes the inflow, and hands back the store and its outflow: by `mut self`, as document 01 has it. How far it strays is said of the store handed
    // in and of every list of inflows into it.
    #[tactic(auto, using(crate::proofs::store::StoreLaws::store_accepts, crate::proofs::store::StoreLaws::store_refuses, crate::proofs::store::StrayLaws::strays), unfolding(crate::specs::Store::content))]
    pub fn take(mut self, inflow: u64) -> Taken
        ensures answers { as_released result ≡ store_call self inflow }
        ensures strays { Strays self }
    {
        if !self.is_inside(inflow) {
            return Taken {
                store: self,
                outflow: Err(Refusal::OutOfRange),
            };
        }
        let out = self.outflow(inflow);
        self.content = self.content + inflow - out;
        Taken {
            store: self,
            outflow: Ok(out),
        }
    }

    // Whether the store and its inflow are inside their limits.
    fn is_inside(self, inflow: u64) -> bool
        ensures { IsTrue result ↔ StoreIn self inflow }
    {
        self.a <= ONE && self.g <= ONE && inflow <= MOST_INFLOW && self.content <= MOST_CONTENT
    }

    // (a * i + g * v + 32,768) / 65,536. The sum may pass 64 bits, so i and v are parted at 16 bits and the low products are divided together.
    #[tactic(auto, using(crate::proofs::store::PartsLaws::outflow_parted, crate::proofs::store::StoreLaws::store_within), unfolding(crate::specs::Store::outflow))]
    fn outflow(self, i: u64) -> u64
        requires { StoreIn self i }
        ensures { (result ≡ outflow self.a self.g self.content i) × (result ≤ self.content + i) }
    {
        let v = self.content;
        let low_i = self.a * (i % ONE);
        let low_v = self.g * (v % ONE);
        self.a * (i / ONE) + self.g * (v / ONE) + (low_i + low_v + HALF) / ONE
    }
}
