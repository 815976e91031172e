// The search for the shortest ways back from the last point, until point 0 is reached. Nearly all ways are of length 0, so most
// nodes are reached at the distance where the search stands: those go on a stack. The others wait in a list, which is looked
// through for its least distance only when the stack is empty.
// Numbers are narrowed by `as`: that nothing is lost is proved, and `try_from` would make a Result that is never an Err.
ghost use Rattle.std.specs.Prelude.{◌≡◌, suc, ◌*◌, ◌-◌, ◌<◌, replicate};
ghost use Rattle.frontier.specs.Frontier.{far, desk_of};
ghost use Rattle.steps.specs.Search.{ways_by, Runs, Graph, Finds};

use frontier::Frontier;

// The distances of a search that has not begun. One search must not colour the next: every node is unreached.
pub fn fresh() -> [u32; Frontier::MAX]
    ensures { result ≡ replicate 2050 far }
{
    [Frontier::FAR; Frontier::MAX]
}

// The three ways into each node of n requests: where they come from, and how long they are.
#[derive(Drop)]
pub struct Ways<'a> {
    pub n: usize,
    pub from: &'a [u16; ways::PLACES],
    pub len: &'a [u32; ways::PLACES],
}

// Takes a node from the stack, and offers each way into it: one that is closed is too long to bring any node nearer. The requests
// and what is left are not read: they bound the nodes and the turns to come.
fn spread(ways: &Ways<'_>, search: &mut Frontier, current: u64, left: usize)
    requires { Graph ways.now.n ways.now.from.now ways.now.len.now × Runs (suc (2 * ways.now.n)) ways.now.n (ways_by ways.now.from.now ways.now.len.now) (desk_of search.old) current left × (0 < search.old.top) }
    ensures { Runs (suc (2 * ways.now.n)) ways.now.n (ways_by ways.now.from.now ways.now.len.now) (desk_of search.new) current (left - 1) }
{
    search.top -= 1;
    let u = search.stack[search.top];
    for kind in 0..3 {
        let way = 3 * usize::from(u) + kind;
        let e = current + u64::from(ways.len[way]);
        search.offer(u, ways.from[way], e, current);
    }
}

// The distances back from point n, until point 0 is reached, and where the way goes on from each node. The search is lent, since one
// that is handed out is copied, and the stack is short.
pub fn shortest(ways: &Ways<'_>, search: &mut Frontier)
    requires { Graph ways.now.n ways.now.from.now ways.now.len.now }
    ensures { Finds (suc (2 * ways.now.n)) ways.now.n (ways_by ways.now.from.now ways.now.len.now) search.new.dist search.new.hop }
{
    search.dist = fresh();
    search.dist[ways.n] = 0;
    search.stack[0] = ways.n as u16;
    search.top = 1;
    search.waiting = 0;
    let mut current: u64 = 0;
    // A `for` over the turns is no plainer: where none is left it would still owe that point 0 is reached.
    let mut left: usize = 2 * Frontier::MAX;
    while current < u64::from(search.dist[0]) {
        if search.top == 0 {
            current = search.refill(current);
        }
        spread(ways, search, current, left);
        left -= 1;
    }
}
