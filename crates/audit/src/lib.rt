// The audit of a trace and a plan: total cost, read misses, fills and write hits, or one of refusals 1 to 17.
// A trace and a plan are two slices in every call, as the C interface lends them: a struct of both
// would be made for each call and taken apart in it.
#![tactic(auto)]

ghost use Rattle.std.specs.Prelude.{◌≡◌, min, take};
ghost use Rattle.model.specs.Numbers.{max_requests};
ghost use Rattle.model.specs.Refusals.{said, passes, answered};
ghost use Rattle.trace.specs.TraceFile.{requests_at};
ghost use Rattle.plan.specs.PlanFile.{section_tried, rents_of, rents_tried};
ghost use Rattle.plan.specs.Reading.{rents_into};
ghost use Rattle.audit.specs.Audit.{plan_rents, rents_read, audit_of};

use model::{Refusal, Requests};
use replay::Totals;

// The totals of a plan's flags, if none of refusals 1 to 17 holds. The stated cost is compared in all its 64 bits.
pub fn audit(trace: &[u8], plan: &[u8]) -> Result<Totals, Refusal>
    ensures { answered result ≡ audit_of trace.now plan.now }
{
    plan::check(trace, plan)?;
    let totals = replay::replay(trace, plan::flags(trace, plan))?;
    if plan::stated_cost(plan) != totals.total {
        return Err(Refusal::StatedCost);
    }
    check_rents(trace, plan)?;
    Ok(totals)
}

// Row 17 of a plan. The room for its rents is cleared only here, once all other rows have passed.
fn check_rents(trace: &[u8], plan: &[u8]) -> Result<(), Refusal>
    requires { section_tried trace.now plan.now ≡ passes }
    ensures { said result ≡ rents_tried 0 (plan_rents trace.now plan.now) }
{
    let mut room = [0; Requests::MAX];
    let n = rents(trace, plan, &mut room);
    plan::check_rents(&room[..n])
}

// Reads the rents of a plan as numbers into the room that is lent, and answers for how many requests: as many as the trace states, and
// no more than there is room for. The rest of the room is kept, and all of it where one of refusals 1 to 12 holds.
#[tactic(auto, using(crate::proofs::Parts::rents_first))]
pub fn rents(trace: &[u8], plan: &[u8], room: &mut [u32; Requests::MAX]) -> usize
    ensures count { result ≡ min (requests_at trace.now) max_requests }
    ensures room_after { room.new ≡ rents_into (rents_of trace.now plan.now) room.old }
    ensures read { take result room.new ≡ rents_read trace.now plan.now room.old }
    ensures sound { section_tried trace.now plan.now ≡ passes → take result room.new ≡ plan_rents trace.now plan.now }
{
    plan::read_rents(plan::rents(trace, plan), room);
    trace::requests(trace).min(Requests::MAX)
}
