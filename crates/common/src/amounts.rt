// Lists of amounts: a bound on all of them, and their sum, which stops at the greatest number of 64 bits.
ghost use Rattle.std.specs.Prelude.{◌≡◌, drop};
ghost use Rattle.common.specs.Amounts.{sum, all_up_to, capped};

// Whether no amount from the place on is above the bound.
pub fn up_to(bound: u64, xs: &[u64], from: usize) -> bool
    ensures { result ≡ all_up_to bound (drop from xs.now) }
{
    xs.iter().skip(from).all(|&x| x <= bound)
}

// The sum of all amounts.
pub fn total(xs: &[u64]) -> u64
    ensures { result ≡ capped (sum xs.now) }
{
    let mut all = 0u64;
    for &x in xs {
        all = all.saturating_add(x);
    }
    all
}
