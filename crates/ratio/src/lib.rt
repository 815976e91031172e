// The gap ratio of a least cost and a measured one: one exact division, or the word that there is none.
#![tactic(auto)]

ghost use Rattle.std.specs.Prelude.{◌≡◌};
ghost use Rattle.model.specs.Refusals.{answered};
ghost use Rattle.ratio.specs.Ratio.{ratio_of};

use model::{PlanCost, Refusal};

// How far a measured cost is above the least: both are 0, only the least is 0, or their quotient.
#[derive(Clone, Copy, Debug, PartialEq)]
pub enum Gap {
    NoCost,
    NoRatio,
    Ratio(f64),
}

// The measured cost by the least.
#[tactic(auto, unfolding(crate::specs::Ratio::ratio_tried))]
pub fn ratio(least: u64, measured: u64) -> Result<Gap, Refusal>
    ensures { answered result ≡ ratio_of least measured }
{
    if least > PlanCost::MAX || measured > PlanCost::MAX {
        return Err(Refusal::CostTooLarge);
    }
    if measured < least {
        return Err(Refusal::BelowLeast);
    }
    match (least, measured) {
        (0, 0) => Ok(Gap::NoCost),
        (0, _) => Ok(Gap::NoRatio),
        _ => Ok(Gap::Ratio(measured as f64 / least as f64)),
    }
}
