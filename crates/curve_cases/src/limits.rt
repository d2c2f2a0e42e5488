// Both ends of every limit and one beyond, each with each, the first argument soonest, printed in full.
use crate::calls::Call;
use curve::capacity::Curve;
use curve::store::Store;
use std::io;
use testing::ranges::{Edge, Range};

const EXPONENTS: [u64; 4] = [15, 16, 48, 49];

pub fn print(rt: &impl Print) -> io::Result<()> {
    roots(rt, |t| Call::Root(t))?;
    roots(rt, |t| Call::RootByTable(t))?;
    powers(rt, |t, e| Call::Power(t, e))?;
    powers(rt, |t, e| Call::PowerByTable(t, e))?;
    curves(rt, |curve, edge| {
        Call::Held(curve, Range::between(0, curve.m).at(edge))
    })?;
    curves(rt, |curve, edge| {
        Call::Ordinate(curve, Range::between(0, curve.c).at(edge))
    })?;
    stores(rt)
}

fn roots<F: Fn(u64) -> Call>(rt: &impl Print, call: F) -> io::Result<()>
    requires { F.IsAlwaysCallable call }
{
    for t in ends(65536) {
        call(t).print(rt)?;
    }
    Ok(())
}

fn powers<F: Fn(u64, u64) -> Call>(rt: &impl Print, call: F) -> io::Result<()>
    requires { F.IsAlwaysCallable call }
{
    for e in EXPONENTS {
        for t in ends(65536) {
            call(t, e).print(rt)?;
        }
    }
    Ok(())
}

// a from 0 to m and w from 0 to c, and one beyond.
fn curves<F: Fn(Curve, Edge) -> Call>(rt: &impl Print, call: F) -> io::Result<()>
    requires { F.IsAlwaysCallable call }
{
    for edge in [Edge::Least, Edge::Most, Edge::Above] {
        for e in EXPONENTS {
            for m in ends(2000000) {
                for c in ends(500000) {
                    call(Curve { c, m, e }, edge).print(rt)?;
                }
            }
        }
    }
    Ok(())
}

fn stores(rt: &impl Print) -> io::Result<()> {
    for inflow in ends(1 << 62) {
        for content in ends(1 << 56) {
            for g in ends(65536) {
                for a in ends(65536) {
                    Call::Store(Store { a, g, content }, inflow).print(rt)?;
                }
            }
        }
    }
    Ok(())
}

fn ends(limit: u64) -> [u64; 4] {
    [0, 1, limit, limit.saturating_add(1)]
}

const FAR: u64 = u64::MAX;

const UNIT: Curve = Curve { c: 1, m: 1, e: 16 };

const ONE: Store = Store {
    a: 1,
    g: 1,
    content: 1,
};

// Each argument in turn at the greatest u64, the others within their limits.
pub fn far(rt: &impl Print) -> io::Result<()> {
    for call in [
        Call::Root(FAR),
        Call::RootByTable(FAR),
        Call::Power(FAR, 16),
        Call::Power(1, FAR),
        Call::PowerByTable(FAR, 16),
        Call::PowerByTable(1, FAR),
        Call::Held(Curve { c: FAR, ..UNIT }, 1),
        Call::Held(Curve { m: FAR, ..UNIT }, 1),
        Call::Held(Curve { e: FAR, ..UNIT }, 1),
        Call::Held(UNIT, FAR),
        Call::Ordinate(Curve { c: FAR, ..UNIT }, 1),
        Call::Ordinate(Curve { m: FAR, ..UNIT }, 1),
        Call::Ordinate(Curve { e: FAR, ..UNIT }, 1),
        Call::Ordinate(UNIT, FAR),
        Call::Store(Store { a: FAR, ..ONE }, 1),
        Call::Store(Store { g: FAR, ..ONE }, 1),
        Call::Store(
            Store {
                content: FAR,
                ..ONE
            },
            1,
        ),
        Call::Store(ONE, FAR),
    ] {
        call.print(rt)?;
    }
    Ok(())
}
