// The way through the reaches to the outlet: document 01, "The store law". All in m³.
ghost use Rattle.std.specs.Prelude.{◌≡◌};
ghost use Rattle.basin.specs.Network.{reach_out, reach_after};
ghost use Rattle.basin.specs.Workers.{Passing, Flowing, Flowed};

use crate::reach::Reach;
use curve::store::Store;

// What has come to the outlet, and what the reaches then hold.
#[derive(Drop)]
pub struct Routed {
    pub outlet: u64,
    pub held: u64,
}

// Reaches 1..m in order: each takes what is on its way to it, and sends its outflow on. Entry 0 of `pending` is the outlet.
pub fn route(reaches: &mut [Reach; 31], pending: &mut [u64; 32], m: u64) -> Routed
    requires { Flowing m reaches.old pending.old }
    ensures { Flowed m reaches.old pending.old reaches.new result.outlet result.held }
{
    let mut held = 0;
    // By index: what is lent by `iter_mut().enumerate()` (tried) is not known to a proof in the loop, nor after it.
    for i in 0..m as usize {
        let r = &mut reaches[i];
        let out = r.pass(pending[i + 1]);
        pending[i + 1] = 0;
        pending[r.next as usize] += out;
        held += r.content;
    }
    Routed {
        outlet: pending[0],
        held,
    }
}

impl Reach {
    // Takes the inflow, and hands back the outflow. As `pass` of `subbasin` with other shares: one for both would be public in `curve`, and ask
    // something of its caller.
    fn pass(&mut self, inflow: u64) -> u64
        requires { Passing self.old inflow }
        ensures { (self.new ≡ reach_after self.old inflow) × (result ≡ reach_out self.old inflow) }
    {
        let store = Store {
            a: self.c0,
            g: self.c0 + self.c1,
            content: self.content,
        };
        let taken = store.take(inflow);
        self.content = taken.store.content;
        taken.outflow.unwrap()
    }
}
