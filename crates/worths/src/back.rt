// The worths at the start, told from the last request back.
// Numbers are narrowed by `as`: that nothing is lost is proved, and `try_from` would make a Result that is never an Err.
ghost use Rattle.std.specs.Prelude.{◌≡◌, ◌≤◌, ◌<◌};
ghost use Rattle.worths.specs.Worths.{gain_by, ahead_by, point_by, Told};

use crate::PLACES;
use model::Requests;

// What an item that is worth q after request u is worth before it.
pub fn gain(trace: &[u8], u: usize, q: u32) -> u32
    ensures { result ≡ gain_by trace.now u q }
{
    let cost = trace::cost(trace, u) as u32;
    if trace::is_write(trace, u) {
        q.saturating_sub(cost)
    } else {
        q.saturating_add(cost)
    }
}

// What holding request t's item is worth by its next request.
pub fn ahead(
    trace: &[u8],
    next: &[u16; Requests::MAX],
    worth: &[u32; PLACES],
    n: usize,
    t: usize,
) -> u32
    requires { (t < n) × (n ≤ 1024) }
    ensures { result ≡ ahead_by trace.now n next.now worth.now t }
{
    let u = usize::from(next[t]);
    if t < u && u < n {
        gain(trace, u, worth[n + 1 + u])
    } else {
        0
    }
}

// What an empty slot is worth before request t, where it is worth `after` behind it and a held item q.
pub fn point(trace: &[u8], t: usize, after: u32, q: u32) -> u32
    ensures { result ≡ point_by trace.now t after q }
{
    if trace::is_write(trace, t) {
        after
    } else {
        after.max(q.saturating_sub(trace::fill(trace) as u32))
    }
}

// Fills the worths of n requests.
pub fn tell(trace: &[u8], next: &[u16; Requests::MAX], n: usize, worth: &mut [u32; PLACES])
    requires { n ≤ 1024 }
    ensures { Told trace.now n next.now worth.old worth.new }
{
    worth[n] = 0;
    for t in (0..n).rev() {
        let after = worth[t + 1];
        let q = after.max(ahead(trace, next, worth, n, t));
        worth[n + 1 + t] = q;
        worth[t] = point(trace, t, after, q);
    }
}
