// The next request of each request, found through chains of the requests whose items are equal modulo their count n.
// The chains are places in two fixed lists, and no map: nothing here uses the heap.
// Numbers are narrowed by `as`: that nothing is lost is proved, and `try_from` would make a Result that is never an Err.
ghost use Rattle.std.specs.Prelude.{◌≡◌, suc, ◌<◌, length};
ghost use Rattle.links.specs.Chains.{First, item_in, bucket_in, Room, Ready, Nexts};

use model::Requests;

// The bucket of t's item: there are as many as requests.
pub fn bucket(items: &[u16], t: usize) -> usize
    requires { t < length items.now }
    ensures { (result ≡ bucket_in items.now (length items.now) t) × (result < length items.now) }
{
    usize::from(items[t]) % items.len()
}

// The next request of t's item, by a walk along the chain from `start`: the chain says where the loop goes on, and no range does.
pub fn walk(items: &[u16], chain: &[u16], t: usize, start: usize) -> usize
    requires { Ready items.now chain.now (length items.now) t start }
    ensures { First (item_in items.now) (length items.now) (item_in items.now t) (suc t) result }
{
    let item = items[t];
    let mut j = start;
    while j < items.len() {
        if items[j] == item {
            return j;
        }
        j = usize::from(chain[j]);
    }
    j
}

// The next request of each request, from the last to the first; the chains are laid in `chain`.
pub fn link(items: &[u16], next: &mut [u16], chain: &mut [u16])
    requires { Room items.now next.old chain.old (length items.now) }
    ensures { Nexts items.now next.new (length items.now) 0 }
{
    let n = items.len();
    let mut head = [n as u16; Requests::MAX];
    for t in (0..n).rev() {
        let b = bucket(items, t);
        let j = head[b];
        let m = walk(items, chain, t, usize::from(j));
        next[t] = m as u16;
        chain[t] = j;
        head[b] = t as u16;
    }
}
