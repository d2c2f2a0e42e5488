// Random series of calls, folded into a checksum for each series; every 2,500th call is printed in full before its series' checksum.
ghost use Rattle.std.specs.Prelude.{◌≤◌};

use crate::calls::Call;
use curve::capacity::Curve;
use curve::store::Store;
use std::io;
use testing::chance::Chance;
use testing::checksum::Checksum;
use testing::choices::up_to;

pub fn print(rt: &impl Print) -> io::Result<()> {
    series(rt, |chance| Call::Root(chance.next() % 66000))?;
    series(rt, |chance| {
        let [t, e] = chance.draws::<2>();
        Call::Power(t % 66000, 15 + e % 35)
    })?;
    series(rt, |chance| {
        let (curve, a) = held(chance);
        Call::Held(curve, a)
    })?;
    series(rt, |chance| {
        let (curve, w) = ordinate(chance);
        Call::Ordinate(curve, w)
    })?;
    series(rt, |chance| {
        let (store, inflow) = store(chance);
        Call::Store(store, inflow)
    })
}

fn series<F: Fn(&mut Chance) -> Call>(rt: &impl Print, draw: F) -> io::Result<()>
    requires { F.IsAlwaysCallable draw }
{
    let mut chance = Chance::new();
    let mut sum = Checksum::default();
    for i in 0..100000 {
        let call = draw(&mut chance);
        if i % 2500 == 0 {
            call.print(rt)?;
        }
        call.add(&mut sum);
    }
    println!(rt; "series {} {sum}", draw(&mut chance).name())
}

// A curve and a.
pub fn held(chance: &mut Chance) -> (Curve, u64) {
    let curve = curve(chance);
    (curve, up_to(curve.m.saturating_add(1), chance.next()))
}

// A curve and w.
pub fn ordinate(chance: &mut Chance) -> (Curve, u64) {
    let curve = curve(chance);
    (curve, up_to(curve.c.saturating_add(1), chance.next()))
}

// A store and its inflow.
fn store(chance: &mut Chance) -> (Store, u64) {
    let [a, g] = chance.draws::<2>();
    let content = wide(chance) >> (chance.next() % 60);
    let inflow = (wide(chance) * 2) >> (chance.next() % 60);
    let store = Store {
        a: a % 66000,
        g: g % 66000,
        content,
    };
    (store, inflow)
}

fn curve(chance: &mut Chance) -> Curve {
    let c = capacity(chance, 500001);
    let m = capacity(chance, 2000001);
    let e = 15 + chance.next() % 35;
    Curve { c, m, e }
}

// A capacity of one of four sizes, the largest up to the most.
fn capacity(chance: &mut Chance, most: u64) -> u64 {
    let [size, x] = chance.draws::<2>();
    match size % 4 {
        0 => x % 20,
        1 => x % 1000,
        2 => x % 66000,
        _ => up_to(most, x),
    }
}

// A number below 2^62 of two draws.
fn wide(chance: &mut Chance) -> u64
    ensures { result ≤ 4611686018427387903 }
{
    let [x, y] = chance.draws::<2>();
    x % 2147483648 * 2147483648 + y % 2147483648
}
