// The digits of a fraction over a power of two, as a float's bits have it.
ghost use Rattle.std.specs.Prelude.{◌≡◌, ◌+◌, ◌-◌, ◌*◌, ◌/◌, ◌%◌, ◌^◌, ◌≤◌, ◌<◌};
ghost use Rattle.floats.specs.Cut.{fraction};

use crate::Decimals;

// The first of a float's 53 binary digits, which its bits leave out.
const FIRST: u64 = 1 << 52;

// The digits of a float by its bits: 53 binary digits, of which the last stands for 2^(exponent - 1075).
pub fn of_bits(bits: u64) -> Decimals
    requires { (1023 ≤ bits / 2 ^ 52) × (bits / 2 ^ 52 ≤ 1075) }
    ensures { result ≡ fraction (bits % 2 ^ 52 + 2 ^ 52) (2 ^ (1075 - bits / 2 ^ 52)) }
{
    let exponent = bits >> 52;
    let one = 1u64 << (1075 - exponent);
    of_fraction((bits & (FIRST - 1)) | FIRST, one)
}

// The digits of a / one, by long division.
fn of_fraction(a: u64, one: u64) -> Decimals
    requires { (0 < one) × (one ≤ 2 ^ 52) }
    ensures { result ≡ fraction a one }
{
    let mut parts: u64 = 0;
    let mut rest = a % one;
    for _ in 0..16u64 {
        parts = 10 * parts + 10 * rest / one;
        rest = 10 * rest % one;
    }
    Decimals {
        whole: a / one,
        parts,
    }
}
