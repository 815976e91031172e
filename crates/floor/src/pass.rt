// The least prices of all items in one pass from the last request to the first, by the next request of each request's item.
// Prices are narrowed by `as`: that nothing is lost is proved, and `try_from` would make a Result that is never an Err.
ghost use Rattle.std.specs.Prelude.{◌≡◌, cond, ℕ, ◌+◌, ◌*◌, ◌≤◌, ◌<◌, min, length, get_or, eqb};
ghost use Rattle.std.proofs.Math.IntN.{sub_ℕ};
ghost use Rattle.model.specs.Model.{leasts as leastsOf};
ghost use Rattle.model.specs.Plans.{rents_in};
ghost use Rattle.trace.specs.TraceFile.{fill_at, kind_at, cost_at, trace_in};
ghost use Rattle.floor.specs.Sides.{pair_in};
ghost use Rattle.floor.specs.Pass.{paid_to, Ready};

use crate::Pair;
use model::Requests;

// The price from just before request t, its item not held: `none` if it is not held after it, `kept` the price of holding it then.
pub fn from_out(trace: &[u8], t: usize, none: u64, kept: u64) -> u64
    requires { (none < 4294967296) × (kept < 4294967296) }
    ensures { result ≡ cond (eqb (kind_at trace.now t) 1) none (cost_at trace.now t + min none (fill_at trace.now + kept)) }
{
    if trace::is_write(trace, t) {
        return none;
    }
    trace::cost(trace, t) + none.min(trace::fill(trace) + kept)
}

// The same with its item held: a write hit is paid for, and then it may be dropped.
pub fn from_in(trace: &[u8], t: usize, none: u64, kept: u64) -> u64
    requires { (none < 4294967296) × (kept < 4294967296) }
    ensures { result ≡ cond (eqb (kind_at trace.now t) 1) (cost_at trace.now t) 0 + min none kept }
{
    if !trace::is_write(trace, t) {
        return none.min(kept);
    }
    trace::cost(trace, t) + none.min(kept)
}

// The sum of all rents.
#[tactic(auto, using(crate::proofs::Lists::paid_sum))]
pub fn paid(rents: &[u32]) -> u64
    requires { length rents.now ≤ 1024 }
    ensures { result ≡ paid_to (rents_in rents.now) (length rents.now) }
{
    rents.iter().map(|rent| u64::from(*rent)).sum()
}

// The price from just before a request with its item not held, and the price with it held and the rents of all gaps up to there: four
// bytes each, so that the list of them takes half the room.
#[derive(Clone, Copy)]
pub struct Price {
    pub out: u32,
    pub held: u32,
}

// The least prices of the items, added up; `all` is the sum of all rents. The list holds the prices of each request passed, and at the
// place past the last one what is to be paid from the end on: nothing, with all rents before it.
pub fn leasts(trace: &[u8], rents: &[u32], next: &[u16; Requests::MAX], all: u64) -> u64
    requires { Ready trace.now rents.now next.now × (all ≡ paid_to (rents_in rents.now) (length rents.now)) }
    ensures { result ≡ leastsOf (trace_in trace.now) (rents_in rents.now) }
{
    let n = trace::requests(trace);
    let mut prices = [Price { out: 0, held: 0 }; Requests::MAX + 1];
    prices[n] = Price {
        out: 0,
        held: all as u32,
    };
    let mut total: u64 = 0;
    let mut paid = all;
    for t in (0..n).rev() {
        let before = paid - u64::from(rents[t]);
        let after = prices[usize::from(next[t])];
        let none = u64::from(after.out);
        let held = u64::from(after.held);
        let kept = held - before;
        let miss = from_out(trace, t, none, kept);
        let hold = from_in(trace, t, none, kept);
        total = total + miss - none;
        prices[t] = Price {
            out: miss as u32,
            held: (hold + before) as u32,
        };
        paid = before;
    }
    total
}

// The two sides of the floor.
pub fn both(trace: &[u8], rents: &[u32], next: &[u16; Requests::MAX]) -> Pair
    requires { Ready trace.now rents.now next.now }
    ensures { result ≡ pair_in trace.now rents.now }
{
    let all = paid(rents);
    Pair {
        leasts: leasts(trace, rents, next, all),
        taken: trace::slots(trace) as u64 * all,
    }
}

// The one side less the other. Both fit by what is required: `i64::try_from` would make a Result of each that is never an Err.
pub fn less(a: u64, b: u64) -> i64
    requires { (a < 4611686018427387904) × (b < 4611686018427387904) }
    ensures { result ≡ sub_ℕ a b }
{
    a as i64 - b as i64
}
