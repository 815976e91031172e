// The ways into each node of the network that is left over the flags: where each comes from, and how long it is.
// Node g is point g, which stands before request g; node n + 1 + t is request t. Way `kind` into node u stands at place 3 u + kind:
// `Sourced` and `Measured` hold flat lists of numbers, so the lists here are flat.
#![tactic(auto)]

ghost use Rattle.std.specs.Prelude.{◌≡◌};
ghost use Rattle.ways.specs.Promise.{Sourced, Charged, Measured};

use crate::turns::Network;
use model::Requests;

mod lists;
mod origins;
mod paid;
mod turns;

// How many nodes a list has room for: a point before each request, the last point, and each request. The crates of the
// ways, of the worths and of the search know nothing of each other, and model knows of no nodes: so each has this number.
pub const NODES: usize = 2 * Requests::MAX + 2;

// How many places a list of ways has: three for each node.
pub const PLACES: usize = 3 * NODES;

// The length of a way that is closed. It is a number and no `None`, since `Measured` holds numbers.
pub const CLOSED: u32 = u32::MAX;

// Where all ways come from, three for each node; nothing where n is over 1024. It takes the two lists and no `Links`: `Sourced` speaks
// of each list, and this crate knows nothing of links.
pub fn sources(
    next: &[u16; Requests::MAX],
    prev: &[u16; Requests::MAX],
    n: usize,
    from: &mut [u16; PLACES],
)
    ensures { Sourced n next.now prev.now from.old from.new }
{
    if n <= Requests::MAX {
        origins::lay(next, prev, n, from);
    }
}

// The charges of all requests; nothing where there are over 1024.
pub fn charges(trace: &[u8], charges: &mut [u32; Requests::MAX])
    ensures { Charged trace.now charges.old charges.new }
{
    let n = trace::requests(trace);
    if n <= Requests::MAX {
        for (t, charge) in charges[..n].iter_mut().enumerate() {
            *charge = paid::charge(trace, t);
        }
    }
}

// The lengths of all ways, three for each node, with k slots laid; nothing where n is over 1024. `Measured` names each of the eight,
// and a `Network` cannot stand for six of them: its field `few` is proved from the test.
pub fn lengths(
    n: usize,
    fill: u32,
    k: u8,
    from: &[u16; PLACES],
    charges: &[u32; Requests::MAX],
    flags: &[u8; Requests::MAX],
    worth: &[u32; NODES],
    len: &mut [u32; PLACES],
)
    ensures { Measured n fill k from.now charges.now flags.now worth.now len.old len.new }
{
    if n <= Requests::MAX {
        let network = Network {
            n,
            fill,
            from,
            charges,
            flags,
            worth,
        };
        network.lay(k, len);
    }
}
