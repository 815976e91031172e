// The sizes of a plan's parts, and rows 9 to 12 in their order.
ghost use Rattle.std.specs.Prelude.{◌≡◌};
ghost use Rattle.model.specs.Refusals.{said};
ghost use Rattle.trace.specs.TraceFile.{requests_at};
ghost use Rattle.plan.specs.PlanFile.{marked_plan, plan_tried};

use crate::HEAD;
use model::Refusal;

// Whether the mark, the version and the zero byte are right. Trace's has another mark and no zero byte: what both have is one test
// of a version.
pub fn marked(plan: &[u8]) -> bool
    ensures { result ≡ marked_plan plan.now }
{
    plan.starts_with(b"CPL")
        && fields::number_at::<2>(plan, 3) == 1
        && fields::byte_at(plan, 5) == 0
}

// Rows 9 to 12, against a trace.
#[tactic(auto, unfolding(crate::specs::PlanFile::plan_tried))]
pub fn tried(trace: &[u8], plan: &[u8]) -> Result<(), Refusal>
    ensures { said result ≡ plan_tried (requests_at trace.now) plan.now }
{
    if plan.len() < HEAD {
        return Err(Refusal::PlanTooShort);
    }
    if !marked(plan) {
        return Err(Refusal::PlanMark);
    }
    if fields::number_at::<2>(plan, 6) != trace::requests(trace) as u64 {
        return Err(Refusal::RequestCount);
    }
    if plan.len() != crate::size(trace) {
        return Err(Refusal::PlanLength);
    }
    Ok(())
}
