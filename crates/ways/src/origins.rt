// Where the ways into the nodes come from.
// Numbers are narrowed by `as`: that nothing is lost is proved, and `try_from` would make a Result that is never an Err.
ghost use Rattle.std.specs.Prelude.{◌≡◌, suc, ◌+◌, ◌-◌, ◌≤◌, ◌<◌, cond, ltb};
ghost use Rattle.ways.specs.Ways.{point_source, request_source};
ghost use Rattle.ways.specs.Parts.{put_both};

use crate::PLACES;
use crate::lists::put;
use model::Requests;

// The node of request s, or of t where there is no request s.
fn node(n: usize, s: u16, t: usize) -> u16
    requires { (t < n) × (n ≤ 1024) }
    ensures { result ≡ n + 1 + cond (ltb s n) s t }
{
    let s = usize::from(s);
    let request = if s < n { s } else { t };
    (n + 1 + request) as u16
}

// The sources of the ways into all nodes.
pub fn lay(
    next: &[u16; Requests::MAX],
    prev: &[u16; Requests::MAX],
    n: usize,
    from: &mut [u16; PLACES],
)
    requires { n ≤ 1024 }
    ensures { from.new ≡ put_both (point_source n) (request_source n next.now prev.now) n (suc n) n from.old }
{
    for t in 0..n {
        put(
            from,
            t,
            (n + 1 + t) as u16,
            (t + 1) as u16,
            t.saturating_sub(1) as u16,
        );
        put(
            from,
            n + 1 + t,
            node(n, next[t], t),
            node(n, prev[t], t),
            t as u16,
        );
    }
    put(from, n, n as u16, n as u16, n.saturating_sub(1) as u16);
}
