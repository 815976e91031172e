// The floor of a trace and a list of rents: a signed number, or one of refusals 1 to 8, 11, 17.
#![tactic(auto)]

ghost use Rattle.std.specs.Prelude.{◌≡◌};
ghost use Rattle.model.specs.Refusals.{answered};
ghost use Rattle.floor.specs.Floor.{floor_of};
ghost use Rattle.floor.specs.Sides.{sides_of};

use links::Links;
use model::Refusal;

mod pass;

// The two sides of the floor: the least prices added up, and w times the sum of all rents.
#[derive(Clone, Copy, Debug, PartialEq, Eq)]
pub struct Pair {
    pub leasts: u64,
    pub taken: u64,
}

// The two sides, with the refusals of the floor.
pub fn sides(trace: &[u8], rents: &[u32]) -> Result<Pair, Refusal>
    ensures { answered result ≡ sides_of trace.now rents.now }
{
    let mut links = Links::new();
    let header = links.fill(trace)?;
    if rents.len() != header.requests {
        return Err(Refusal::RequestCount);
    }
    plan::check_rents(rents)?;
    Ok(pass::both(trace, rents, &links.next))
}

// The floor: the least prices less w times the sum of all rents.
pub fn floor(trace: &[u8], rents: &[u32]) -> Result<i64, Refusal>
    ensures { answered result ≡ floor_of trace.now rents.now }
{
    let pair = sides(trace, rents)?;
    Ok(pass::less(pair.leasts, pair.taken))
}
