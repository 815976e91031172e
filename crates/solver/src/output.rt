// From the lists of a sound trace to the plan in the buffer.
// Numbers are narrowed by `as`: that nothing is lost is proved, and `try_from` would make a Result that is never an Err.
ghost use Rattle.std.specs.Prelude.{◌≡◌, List, ℕ, replicate};
ghost use Rattle.trace.specs.Answers.{header_in};
ghost use Rattle.steps.specs.Ready.{Ready};
ghost use Rattle.steps.specs.Slots.{Laid, Cheap};
ghost use Rattle.solver.specs.Solve.{Accepted};

use crate::slots::{Lists, Slots};
use model::{Refusal, Requests};
use worths::rents;

// Writes the plan that laid slots make. The rents stand in a function of their own, so that they take the room that laying needs no
// longer: the stack is short.
fn write_laid(lists: &Lists<'_>, slots: &Slots, buffer: &mut [u8]) -> Result<u64, Refusal>
    requires ready { (worth : List ℕ) × Ready lists.now.trace.now lists.now.from.now lists.now.charges.now worth buffer.old }
    requires header { lists.now.header ≡ header_in lists.now.trace.now }
    requires laid { Laid lists.now.trace.now lists.now.header.requests lists.now.header.fill lists.now.header.slots slots.now.worth slots.now.flags lists.now.from.now lists.now.charges.now × Cheap lists.now.header.requests slots.now.worth }
    ensures { Accepted lists.now.trace.now buffer.old result buffer.new }
{
    let n = lists.header.requests;
    let mut prices = [1u32; Requests::MAX];
    rents(&slots.worth, n, &mut prices);
    writer::write(lists.trace, &slots.flags[..n], &prices[..n], buffer)
}

// Lays the slots and writes the plan that they make.
pub fn write_least(lists: &Lists<'_>, slots: &mut Slots, buffer: &mut [u8]) -> Result<u64, Refusal>
    requires { Ready lists.now.trace.now lists.now.from.now lists.now.charges.now slots.old.worth buffer.old × (lists.now.header ≡ header_in lists.now.trace.now) × (slots.old.flags ≡ replicate 1024 0) }
    ensures { Accepted lists.now.trace.now buffer.old result buffer.new }
{
    slots.lay(lists, lists.header.slots as u8);
    write_laid(lists, slots, buffer)
}
