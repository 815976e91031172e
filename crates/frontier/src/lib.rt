// What a search keeps of the nodes that it has still to look at: a stack of those that it reached at the distance where it stands,
// and a list of those that wait further off.
// Numbers are narrowed by `as`: that nothing is lost is proved, and `try_from` would make a Result that is never an Err.
#![tactic(auto)]

ghost use Rattle.std.specs.Prelude.{◌≡◌, ◌≤◌, length, get_or, take};
ghost use Rattle.frontier.specs.Frontier.{desk_of, offered, beyond, nearest, those, written};

use model::Requests;

// How far off each node is, where the way goes on from it, and the two lists with how many nodes stand in each. The fields may hold
// anything: what is promised of an offer and of refilling is promised of all that they hold. The two numbers stand first, since the
// compiler then sees that no store into a list changes them. A struct for each list with its number was tried, and misses the bar of
// gp_solve's time at n = 1,024 and w = 64, the fastest of 41 runs: it took 2 to 4 % longer than with numbers apart from all lists, and
// this order takes no longer.
#[derive(Drop)]
pub struct Frontier {
    pub top: usize,
    pub waiting: usize,
    pub dist: [u32; Frontier::MAX],
    pub hop: [u16; Frontier::MAX],
    pub stack: [u16; Frontier::MAX],
    pub list: [u16; Frontier::MAX],
}

// The distance of node v: 0 for what is no node.
fn distance(dist: &[u32], v: u16) -> u64
    ensures { result ≡ get_or dist.now v 0 }
{
    u64::from(dist.get(usize::from(v)).copied().unwrap_or(0))
}

// Drops the nodes that are no further off than `current` from those that wait, and says how many there are then, and the least of their
// distances. What is kept moves within the one list, so its places are counted by hand: an iterator would hold the list while it is
// stored to, and the project has no heap for a second one.
fn sift(dist: &[u32], list: &mut [u16; Frontier::MAX], waiting: usize, current: u64) -> (usize, u64)
    ensures list_after { list.new ≡ written (beyond dist.now current (take waiting list.old)) list.old }
    ensures waiting_value { result.0 ≡ length (beyond dist.now current (take waiting list.old)) }
    ensures waiting_within { result.0 ≤ 2050 }
    ensures low_value { result.1 ≡ nearest dist.now (beyond dist.now current (take waiting list.old)) }
{
    let mut low = u64::from(Frontier::FAR);
    let mut kept = 0;
    for i in 0..waiting.min(Frontier::MAX) {
        let v = list[i];
        let d = distance(dist, v);
        if current < d {
            list[kept] = v;
            kept += 1;
            low = low.min(d);
        }
    }
    (kept, low)
}

// Puts the nodes of a list that are just so far off on the empty stack, and says how many there are: so their places are counted.
fn gather(dist: &[u32], list: &[u16], low: u64, stack: &mut [u16; Frontier::MAX]) -> usize
    requires { length list.now ≤ 2050 }
    ensures stack_after { stack.new ≡ written (those dist.now low list.now) stack.old }
    ensures value { result ≡ length (those dist.now low list.now) }
{
    let mut top = 0;
    for v in list {
        if distance(dist, *v) == low && usize::from(*v) < Frontier::MAX {
            stack[top] = *v;
            top += 1;
        }
    }
    top
}

impl Frontier {
    // How many nodes there can be: a point before each request, the last point, and each request. The
    // crates of the ways and of the worths have this number too: the three know nothing of each other, and model knows of no nodes.
    pub const MAX: usize = 2 * Requests::MAX + 2;

    // The distance of an unreached node: its bytes are equal, so that making an array of it is one fill of memory.
    pub const FAR: u32 = u32::MAX;

    // Offers node v the distance e by way of u. Most offers change nothing, so that is tested first.
    #[tactic(auto, unfolding(crate::specs::Frontier::offered))]
    pub fn offer(&mut self, u: u16, v: u16, e: u64, current: u64)
        ensures { desk_of self.new ≡ offered (desk_of self.old) u v e current }
    {
        let at = usize::from(v);
        if at >= Frontier::MAX {
            return;
        }
        let old = u64::from(self.dist[at]);
        if e >= old {
            return;
        }
        if e == current {
            if self.top >= Frontier::MAX {
                return;
            }
            self.stack[self.top] = v;
            self.top += 1;
        } else if old == u64::from(Frontier::FAR) {
            if self.waiting >= Frontier::MAX {
                return;
            }
            self.list[self.waiting] = v;
            self.waiting += 1;
        }
        self.dist[at] = e as u32;
        self.hop[at] = u;
    }

    // Drops from the list what is no further off than `current`, puts the nearest of the others on the empty stack, and answers how far
    // off those are.
    pub fn refill(&mut self, current: u64) -> u64
        ensures list_after { self.new.list ≡ written (beyond self.old.dist current (take self.old.waiting self.old.list)) self.old.list }
        ensures waiting_value { self.new.waiting ≡ length (beyond self.old.dist current (take self.old.waiting self.old.list)) }
        ensures low_value { result ≡ nearest self.old.dist (beyond self.old.dist current (take self.old.waiting self.old.list)) }
        ensures stack_after { self.new.stack ≡ written (those self.old.dist result (take self.new.waiting self.new.list)) self.old.stack }
        ensures top_value { self.new.top ≡ length (those self.old.dist result (take self.new.waiting self.new.list)) }
        ensures distances_kept { self.new.dist ≡ self.old.dist }
        ensures hops_kept { self.new.hop ≡ self.old.hop }
    {
        let (waiting, low) = sift(&self.dist, &mut self.list, self.waiting, current);
        self.waiting = waiting;
        self.top = gather(&self.dist, &self.list[..waiting], low, &mut self.stack);
        low
    }
}
