// The worths of points and requests, in a list: where they start, how they are raised, what rents they name.
// Of a trace of n requests point g stands at place g, up to point n, and request t at place n + 1 + t.
// It knows nothing of flags and of ways.
// Numbers are narrowed by `as`: that nothing is lost is proved, and `try_from` would make a Result that is never an Err.
// The list is flat, and distances stand in another: `Started`, `Raised` and `Rented` speak of each list.
#![tactic(auto)]

ghost use Rattle.worths.specs.Worths.{Started, Raised, Rented};

use model::Requests;

mod back;

// The greatest worth of a point or a request: it fits four bytes.
pub const MAX: u32 = u32::MAX;

// How many places a list of worths has: enough for a point before each request, the last point, and each request. The crates of the
// ways, of the worths and of the search know nothing of each other, and model knows of no nodes: so each has this number.
pub const PLACES: usize = 2 * Requests::MAX + 2;

// The worths that fit no flags and no slots, told from the last request back by the list of next requests; the rest is kept. All is
// kept of a trace that has too many requests.
pub fn start(trace: &[u8], next: &[u16; Requests::MAX], worth: &mut [u32; PLACES])
    ensures { Started trace.now next.now worth.old worth.new }
{
    let n = trace::requests(trace);
    if n <= Requests::MAX {
        back::tell(trace, next, n, worth);
    }
}

// Each worth before place `nodes` grows by what its distance is short of d; the rest is kept. It is stored only where it grows: wide
// arithmetic on all of them is slow where the program runs under an emulator. To go through both lists at once they would be cut and
// zipped, which is no plainer.
pub fn raise(dist: &[u32; PLACES], nodes: usize, d: u64, worth: &mut [u32; PLACES])
    ensures { Raised dist.now nodes d worth.old worth.new }
{
    for v in 0..nodes.min(PLACES) {
        let at = u64::from(dist[v]);
        if at < d {
            worth[v] = worth[v].saturating_add((d - at).min(u64::from(MAX)) as u32);
        }
    }
}

// The rents that the worths of points name, in the first n places; the rest is kept. Each place is read with the next one.
pub fn rents(worth: &[u32; PLACES], n: usize, rents: &mut [u32; Requests::MAX])
    ensures { Rented worth.now n rents.old rents.new }
{
    for g in 0..n.min(Requests::MAX) {
        rents[g] = worth[g].saturating_sub(worth[g + 1]);
    }
}
