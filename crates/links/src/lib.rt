// The next and the previous request of the same item, for each request of a trace.
#![tactic(auto)]

ghost use Rattle.std.specs.Prelude.{◌≡◌, ◌≤◌, length, replicate};
ghost use Rattle.model.specs.Numbers.{max_requests};
ghost use Rattle.links.specs.Chains.{Laid};
ghost use Rattle.links.specs.Promise.{Filled};

use model::{Refusal, Requests};
use trace::Header;

mod chain;
mod items;
mod turn;

// The two lists of a trace of n requests: their first n places have each request's next and previous request of the same item,
// counted from 0, or n for none: `Filled` has numbers, and no `None`. Two lists and no list of pairs, since each is read alone, and
// `Filled` speaks of each.
#[derive(Drop)]
pub struct Links {
    pub next: [u16; Requests::MAX],
    pub prev: [u16; Requests::MAX],
}

// Lays the links of these items in front of the two lists.
fn lay(items: &[u16], next: &mut [u16; Requests::MAX], prev: &mut [u16; Requests::MAX])
    requires { length items.now ≤ max_requests }
    ensures { Laid items.now next.old prev.old next.new prev.new }
{
    let next = &mut next[..items.len()];
    let prev = &mut prev[..items.len()];
    chain::link(items, next, prev);
    turn::turn(next, prev);
}

impl Links {
    // Lists that are to be filled. It is inlined, so that the caller's lists are made in place.
    #[inline(always)]
    pub fn new() -> Self
        ensures { (result.next ≡ replicate max_requests 0) × (result.prev ≡ replicate max_requests 0) }
    {
        Links {
            next: [0; Requests::MAX],
            prev: [0; Requests::MAX],
        }
    }

    // Fills the lists for a sound trace, and keeps the rest of them. Of any other all is kept. It is inlined, since its own lists
    // would else need more of the stack than a program has left.
    #[inline(always)]
    pub fn fill(&mut self, trace: &[u8]) -> Result<Header, Refusal>
        ensures { Filled trace.now self.old.next self.old.prev result self.new.next self.new.prev }
    {
        let header = trace::check(trace)?;
        let mut room = [0; Requests::MAX];
        let items = &mut room[..header.requests];
        items::read(trace, items);
        lay(items, &mut self.next, &mut self.prev);
        Ok(header)
    }
}
