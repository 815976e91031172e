// Numbers in decimal digits, without leading zeros: how many there are, laying them into a lent page, and reading the number that
// stands at a place of a text.
#![tactic(auto)]

ghost use Rattle.std.specs.Prelude.{◌≡◌, drop, length, ◌≤◌, ◌<◌, IfSome};
ghost use Rattle.pages.specs.Pages.{write};
ghost use Rattle.pages.specs.Lent.{laid};
ghost use Rattle.decimal.specs.Decimal.{decimal, digit_in, digits_from};
ghost use Rattle.decimal.specs.Said.{digit_of, said, Inside, Reads};

use itoa::Buffer;
use pages::Page;

// A number read, and the place behind it.
#[derive(Clone, Copy)]
pub struct Number {
    pub value: u64,
    pub next: usize,
}

// How many digits x has.
#[tactic(auto, using(crate::proofs::Spelling::as_written))]
pub fn count(x: u64) -> usize
    ensures { result ≡ length (decimal x) }
{
    Buffer::new().format(x).len()
}

// Lays the digits of x into a page; what does not fit is left out.
#[tactic(auto, using(crate::proofs::Spelling::as_written))]
pub fn lay(page: &mut Page, x: u64)
    ensures same { page.new.bytes.ghost_name ≡ page.old.bytes.ghost_name }
    ensures page { laid page.new ≡ write (laid page.old) (decimal x) }
{
    page.bytes(Buffer::new().format(x).as_bytes());
}

// The number at a place, of all the digits that stand there: one at least, no leading zero, and no more than `top`.
pub fn read(text: &[u8], at: usize, top: u32) -> Option<Number>
    ensures { Reads text.now at top result }
{
    let first = digit_at(text, at)?;
    if first == 0 {
        return match digit_at(text, at + 1) {
            Some(_) => None,
            None => Some(Number {
                value: 0,
                next: at + 1,
            }),
        };
    }
    long(text, at, top)
}

// The digit at a place, if one stands there.
fn digit_at(text: &[u8], at: usize) -> Option<u64>
    ensures digit { digit_of result ≡ digit_in (drop at text.now) }
    ensures one { IfSome result (λ d. d < 10) }
{
    match text.get(at) {
        Some(&b @ b'0'..=b'9') => Some(u64::from(b - b'0')),
        _ => None,
    }
}

// The number of all the digits from place `at` on. The place is counted by hand, since it is answered.
fn long(text: &[u8], at: usize, top: u32) -> Option<Number>
    requires { at ≤ length text.now }
    ensures { (said text.now result ≡ digits_from top 0 (drop at text.now)) × Inside text.now result }
{
    let mut value: u64 = 0;
    let mut next = at;
    while let Some(d) = digit_at(text, next) {
        value = 10 * value + d;
        if u64::from(top) < value {
            return None;
        }
        next += 1;
    }
    Some(Number { value, next })
}
