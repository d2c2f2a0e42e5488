// The examples of document 01 for the curve and the store.
use crate::calls::Call;
use curve::capacity::Curve;
use curve::store::Store;
use std::io;

const CURVE: Curve = Curve {
    c: 120000,
    m: 180000,
    e: 24,
};

const HALVES: Store = Store {
    a: 32768,
    g: 32768,
    content: 0,
};

const EXAMPLES: [Call; 10] = [
    Call::Power(32768, 24),
    Call::Power(16384, 24),
    Call::Power(4096, 20),
    Call::Power(1, 16),
    Call::Power(1, 17),
    Call::Power(65536, 48),
    Call::Held(CURVE, 135000),
    Call::Held(CURVE, 0),
    Call::Ordinate(CURVE, 0),
    Call::Store(HALVES, 1111),
];

pub fn print(rt: &impl Print) -> io::Result<()> {
    for call in EXAMPLES {
        call.print(rt)?;
    }
    Ok(())
}
