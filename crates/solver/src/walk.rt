// Moving one slot more along the way that a search found.
// The walk is handed the trace and the worths, which it does not read, so that its contract can speak of them.
ghost use Rattle.std.specs.Prelude.{◌≡◌, suc, ◌*◌, ◌≤◌, ◌<◌, length};
ghost use Rattle.trace.specs.TraceFile.{trace_in};
ghost use Rattle.steps.specs.Slots.{hop_flags, Trail, Walked};

use crate::slots::Lists;
use frontier::Frontier;
use model::Requests;

// The flag that a hop from node v to node u changes: from a request to a later one its item is held, to an earlier one held no more.
fn hopped(flags: &mut [u8; Requests::MAX], n: usize, v: usize, u: usize)
    requires { (length flags.old ≡ 1024) × (n ≤ 1024) × (v < suc (2 * n)) × (u < suc (2 * n)) }
    ensures { flags.new ≡ hop_flags n v u flags.old }
{
    if n < v && n < u {
        if v < u {
            flags[v - n - 1] = 1;
        } else {
            flags[u - n - 1] = 0;
        }
    }
}

// Walks from point 0 to point n. No node is passed twice, so what is left of `Frontier::MAX` hops never runs out.
pub fn walk(
    lists: &Lists<'_>,
    worth: &[u32; worths::PLACES],
    flags: &mut [u8; Requests::MAX],
    hop: &[u16; Frontier::MAX],
    k: u8,
)
    requires { Trail (trace_in lists.now.trace.now) lists.now.header.requests k flags.old worth.now hop.now }
    ensures { Walked (trace_in lists.now.trace.now) (suc k) flags.new worth.now }
{
    let n = lists.header.requests;
    // A `for` over the hops is no plainer: where none is left it would still owe that v is point n.
    let mut left: usize = Frontier::MAX;
    let mut v: usize = 0;
    while v != n {
        let u = usize::from(hop[v]);
        hopped(flags, n, v, u);
        v = u;
        left -= 1;
    }
}
