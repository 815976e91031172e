// The decimal digits of a float, without rounding.
#![tactic(auto)]

mod digits;

ghost use Rattle.std.specs.Prelude.{◌≡◌};
ghost use Rattle.floats.specs.Cut.{cut_of};

// A float's whole part and its decimals: sixteen of them, cut off.
#[derive(Clone, Copy)]
pub struct Decimals {
    pub whole: u64,
    pub parts: u64,
}

// The digits of a float from 1 up to 2^53; of any other, 0 and 0.
pub fn cut(x: f64) -> Decimals
    ensures { result ≡ cut_of x }
{
    if x >= 1.0 && x < 9007199254740992.0 {
        return digits::of_bits(x.to_bits());
    }
    Decimals { whole: 0, parts: 0 }
}
