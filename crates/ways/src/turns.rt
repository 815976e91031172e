// The lengths of the ways, request by request. Which of the four cases a request has is decided once, by branches:
// under an emulator a comparison whose result is kept costs more than one that is jumped on.
ghost use Rattle.std.specs.Prelude.{◌≡◌, ◌≤◌, ◌<◌, cond, ltb, get_or};
ghost use Rattle.ways.specs.Ways.{closed, held_by, unheld, now_held};
ghost use Rattle.ways.specs.Parts.{idle_way, down_way, ahead_way, behind_way, middle_way};

use crate::lists::put;
use crate::{CLOSED, NODES, PLACES};
use model::Requests;

// What the lengths are told from: n requests and their fill price, where ways come from, what requests are charged, which items are
// held, and what nodes are worth. Its methods take a request t < n: a struct of a request and that fact is no plainer, since it would
// be made for each request, and each list read through two references, as `self.network.worth`.
#[derive(Clone, Copy)]
pub struct Network<'a> {
    pub n: usize,
    pub fill: u32,
    pub from: &'a [u16; PLACES],
    pub charges: &'a [u32; Requests::MAX],
    pub flags: &'a [u8; Requests::MAX],
    pub worth: &'a [u32; NODES],
    ghost few: { n ≤ 1024 },
}

// How many items are held after a request; the lengths of the way down to its point and of the three ways into it.
#[derive(Drop)]
struct Brought {
    crowd: usize,
    down: u32,
    ahead: u32,
    behind: u32,
    middle: u32,
}

// What a slot worth q loses, by a charge c, for an item worth w that is held from now on, or that is held no more.
fn loss(q: u32, w: u32, c: u32, held: bool) -> u32
    ensures { result ≡ cond held (now_held q w c) (unheld q w c) }
{
    let write = c % 2 == 1;
    if write == held {
        q.wrapping_add(c / 2).wrapping_sub(w)
    } else {
        q.wrapping_sub(c / 2).wrapping_sub(w)
    }
}

// The way across a gap that holds c items, with k slots.
fn across(c: usize, k: u8) -> u32
    ensures { result ≡ cond (ltb c k) 0 closed }
{
    if c < usize::from(k) { 0 } else { CLOSED }
}

impl<'a> Network<'a> {
    ghost use Rattle.ways.specs.Turns.{Brings, laid_in};

    // Whether the item of request t is held before it.
    fn is_held(&self, t: usize) -> bool
        requires { t < self.now.n }
        ensures { result ≡ held_by self.now.flags.now self.now.from.now self.now.n t }
    {
        let v = self.n + 1 + t;
        let b = usize::from(self.from[3 * v + 1]);
        self.n < b && b < v && self.flags[b - (self.n + 1)] == 1
    }

    // The way into request t from the next request of its item, which is kept up to it.
    fn ahead(&self, t: usize) -> u32
        requires { t < self.now.n }
        ensures { result ≡ ahead_way self.now.n self.now.from.now self.now.charges.now self.now.worth.now t }
    {
        let v = self.n + 1 + t;
        let a = usize::from(self.from[3 * v]);
        if v < a && a < 2 * self.n + 1 {
            loss(
                self.worth[a],
                self.worth[v],
                self.charges[a - (self.n + 1)],
                false,
            )
        } else {
            CLOSED
        }
    }

    // The way into request t from the previous request of its item, which is not held.
    fn behind(&self, t: usize) -> u32
        requires { t < self.now.n }
        ensures { result ≡ behind_way self.now.n self.now.from.now self.now.charges.now self.now.worth.now t }
    {
        let v = self.n + 1 + t;
        let b = usize::from(self.from[3 * v + 1]);
        if self.n < b && b < v {
            loss(self.worth[b], self.worth[v], self.charges[t], true)
        } else {
            CLOSED
        }
    }

    // The way into request t from its point, where its item is not given up.
    fn middle(&self, t: usize) -> u32
        requires { t < self.now.n }
        ensures { result ≡ middle_way self.now.n self.now.fill self.now.charges.now self.now.worth.now t }
    {
        if self.charges[t] % 2 == 1 {
            CLOSED
        } else {
            self.worth[t]
                .wrapping_add(self.fill)
                .wrapping_sub(self.worth[self.n + 1 + t])
        }
    }

    // The way from request t down to its point, where no item is filled.
    fn down(&self, t: usize) -> u32
        requires { t < self.now.n }
        ensures { result ≡ down_way self.now.n self.now.worth.now t }
    {
        self.worth[self.n + 1 + t].wrapping_sub(self.worth[t])
    }

    // The way into point g from the point before it.
    fn idle(&self, g: usize) -> u32
        requires { g ≤ self.now.n }
        ensures { result ≡ idle_way self.now.worth.now g }
    {
        if 0 < g {
            self.worth[g - 1].wrapping_sub(self.worth[g])
        } else {
            CLOSED
        }
    }

    // What a request brings whose item is kept after it.
    fn kept(&self, t: usize, c: usize) -> Brought
        requires { (t < self.now.n) × (c < 1024) × (get_or self.now.flags.now t 0 ≡ 1) }
        ensures { Brings self.now t c result }
    {
        let a = self.ahead(t);
        let m = self.middle(t);
        if self.is_held(t) {
            return Brought {
                crowd: c,
                down: self.down(t),
                ahead: a,
                behind: CLOSED,
                middle: m,
            };
        }
        Brought {
            crowd: c + 1,
            down: 0,
            ahead: a,
            behind: self.behind(t),
            middle: m,
        }
    }

    // What a request brings whose item is not kept after it.
    fn dropped(&self, t: usize, c: usize) -> Brought
        requires { (t < self.now.n) × (get_or self.now.flags.now t 0 ≡ 1 → ⊥) }
        ensures { Brings self.now t c result }
    {
        let d = self.down(t);
        if self.is_held(t) {
            return Brought {
                crowd: c.saturating_sub(1),
                down: d,
                ahead: CLOSED,
                behind: CLOSED,
                middle: 0,
            };
        }
        Brought {
            crowd: c,
            down: d,
            ahead: CLOSED,
            behind: self.behind(t),
            middle: self.middle(t),
        }
    }

    // What request t brings, where c items are held before it.
    fn turn(&self, t: usize, c: usize) -> Brought
        requires { (t < self.now.n) × (c < 1024) }
        ensures { Brings self.now t c result }
    {
        if self.flags[t] == 1 {
            self.kept(t, c)
        } else {
            self.dropped(t, c)
        }
    }

    // The lengths of the ways into all nodes, with k slots laid.
    pub fn lay(&self, k: u8, len: &mut [u32; PLACES])
        ensures { len.new ≡ laid_in self.now k len.old }
    {
        let mut c = 0;
        for t in 0..self.n {
            let s = self.turn(t, c);
            c = s.crowd;
            put(len, t, s.down, across(c, k), self.idle(t));
            put(len, self.n + 1 + t, s.ahead, s.behind, s.middle);
        }
        put(len, self.n, CLOSED, CLOSED, self.idle(self.n));
    }
}
