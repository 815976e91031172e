// The judge: it accepts a plan only if nothing allowed is cheaper. It knows of plans only by their files.
#![tactic(auto)]

ghost use Rattle.std.specs.Prelude.{◌≡◌, not};
ghost use Rattle.std.proofs.Math.IntN.{sub_ℕ};
ghost use Rattle.model.specs.Refusals.{passes, row, answer, answered};
ghost use Rattle.audit.specs.Audit.{plan_cost, audit_tried};
ghost use Rattle.judge.specs.Judge.{isℤ, judge_of};

use floor::Pair;
use model::{Refusal, Requests};

// The cost at which a plan is accepted: the audit, then row 18.
pub fn judge(trace: &[u8], plan: &[u8]) -> Result<u64, Refusal>
    ensures { answered result ≡ judge_of trace.now plan.now }
{
    let totals = audit::audit(trace, plan)?;
    let mut room = [0; Requests::MAX];
    let n = audit::rents(trace, plan, &mut room);
    let sides = floor::sides(trace, &room[..n])?;
    compared(sides, totals.total)
}

// Accepted if the floor, the least prices less what is taken, is the cost.
fn compared(sides: Pair, cost: u64) -> Result<u64, Refusal>
    ensures { answered result ≡ answer (row (not (isℤ (sub_ℕ sides.leasts sides.taken) cost)) 18 0 passes) cost }
{
    if sides.leasts.checked_sub(sides.taken) != Some(cost) {
        return Err(Refusal::NotTheFloor);
    }
    Ok(cost)
}
