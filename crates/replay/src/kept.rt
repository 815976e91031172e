// Which items flags keep, read off a trace's links: whether an item is held before a request is the flag of its previous request.
// The readers are total: past the end flags and links count as 0.
ghost use Rattle.std.specs.Prelude.{◌≡◌};
ghost use Rattle.replay.specs.Linked.{flag_at, held_by};

use links::Links;

// A flag for each request, and the links of the trace whose requests they are.
#[derive(Clone, Copy)]
pub struct Kept<'a> {
    pub flags: &'a [u8],
    pub links: &'a Links,
}

impl Kept<'_> {
    // Whether flag t is 1: then the item of request t is held after it.
    pub fn flag(&self, t: usize) -> bool
        ensures { result ≡ flag_at self.now.flags.now t }
    {
        self.flags.get(t).copied().unwrap_or(0) == 1
    }

    // Whether the item of request t is held before it.
    pub fn held(&self, t: usize) -> bool
        ensures { result ≡ held_by self.now.flags.now self.now.links.now.prev t }
    {
        let prev = self.links.prev.get(t).copied().unwrap_or(0);
        self.flag(usize::from(prev))
    }
}
