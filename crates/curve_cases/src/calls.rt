// The public calls of `curve`, with their arguments.
use common::refusal::Refusal;
use curve::capacity::{self, Curve, Newton, Printed};
use curve::store::{Store, Taken};
use std::{fmt, io};
use testing::checksum::Checksum;
use testing::lines::Row;
use testing::refusals;

#[derive(Clone, Copy)]
pub enum Call {
    // Of t.
    Root(u64),
    RootByTable(u64),
    // Of t and e.
    Power(u64, u64),
    PowerByTable(u64, u64),
    // At a, and for w.
    Held(Curve, u64),
    Ordinate(Curve, u64),
    // With an inflow.
    Store(Store, u64),
}

impl Call {
    pub fn name(&self) -> &'static str {
        match self {
            Call::Root(_) => "root",
            Call::RootByTable(_) => "root_by_table",
            Call::Power(_, _) => "power",
            Call::PowerByTable(_, _) => "power_by_table",
            Call::Held(_, _) => "held",
            Call::Ordinate(_, _) => "ordinate",
            Call::Store(_, _) => "store",
        }
    }

    // A call's line: its name, its arguments, then every number of the answer.
    pub fn print(&self, rt: &impl Print) -> io::Result<()> {
        println!(rt; "{self}{}", Row(self.answer().as_slice()))
    }

    // Every number of the answer.
    pub fn add(&self, sum: &mut Checksum) {
        sum.add_row(self.answer().as_slice());
    }

    fn answer(&self) -> Numbers {
        match *self {
            Call::Root(t) => Numbers::from(capacity::root(&Newton, t)),
            Call::RootByTable(t) => Numbers::from(capacity::root(&Printed, t)),
            Call::Power(t, e) => Numbers::from(capacity::power(&Newton, t, e)),
            Call::PowerByTable(t, e) => Numbers::from(capacity::power(&Printed, t, e)),
            Call::Held(curve, a) => Numbers::from(curve.held(&capacity::printed_roots(), a)),
            Call::Ordinate(curve, w) => {
                Numbers::from(curve.ordinate(&capacity::printed_roots(), w))
            }
            Call::Store(store, inflow) => Numbers::from(store.take(inflow)),
        }
    }
}

// Its name and its arguments.
impl fmt::Display for Call {
    fn fmt<W: fmt::Write>(&self, f: &mut fmt::Formatter<W>) -> fmt::Result {
        f.write_str(self.name())?;
        match *self {
            Call::Root(t) | Call::RootByTable(t) => write!(f, " {t}"),
            Call::Power(t, e) | Call::PowerByTable(t, e) => write!(f, " {t} {e}"),
            Call::Held(Curve { c, m, e }, last) | Call::Ordinate(Curve { c, m, e }, last) => {
                write!(f, " {c} {m} {e} {last}")
            }
            Call::Store(Store { a, g, content }, inflow) => {
                write!(f, " {a} {g} {content} {inflow}")
            }
        }
    }
}

// An answer's numbers: number, place and value, or number, place, the store after and the outflow.
#[derive(Clone, Copy)]
pub enum Numbers {
    Value([u64; 3]),
    Store([u64; 6]),
}

impl Numbers {
    pub fn as_slice(&self) -> &[u64] {
        match self {
            Numbers::Value(row) => row,
            Numbers::Store(row) => row,
        }
    }
}

impl From<Result<u64, Refusal>> for Numbers {
    fn from(given: Result<u64, Refusal>) -> Numbers {
        Numbers::Value(refusals::with_value(given))
    }
}

impl From<Taken> for Numbers {
    fn from(given: Taken) -> Numbers {
        let Store { a, g, content } = given.store;
        let [number, place, outflow] = refusals::with_value(given.outflow);
        Numbers::Store([number, place, a, g, content, outflow])
    }
}
