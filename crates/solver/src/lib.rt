// The solver: for every sound trace a plan that the judge accepts. It uses only the promises of the lower crates.
// Its lists are fixed arrays: nothing here uses the heap.
#![tactic(auto)]

ghost use Rattle.solver.specs.Solve.{Promise};

use model::{Refusal, Requests};
use opening::begin;
use output::write_least;
use slots::{Lists, Slots};

mod output;
mod search;
mod slots;
mod walk;

// Writes a least-cost plan from the buffer's start, keeps the rest, and answers the cost; or refuses by 1 to 8, then 19, and changes
// nothing.
pub fn solve(trace: &[u8], buffer: &mut [u8]) -> Result<u64, Refusal>
    ensures { Promise trace.now buffer.old result buffer.new }
{
    let mut from = [1u16; ways::PLACES];
    let mut charges = [1u32; Requests::MAX];
    // Worths of 0 are made where they stand; others would be made beside the struct first, and the stack is short.
    let mut slots = Slots {
        worth: [0; worths::PLACES],
        flags: [0; Requests::MAX],
    };
    let header = begin(trace, &mut from, &mut charges, &mut slots.worth)?;
    if buffer.len() < plan::size(trace) {
        return Err(Refusal::BufferTooShort);
    }
    let lists = Lists {
        trace,
        header,
        from: &from,
        charges: &charges,
    };
    write_least(&lists, &mut slots, buffer)
}
