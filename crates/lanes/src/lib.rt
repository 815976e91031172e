// Which slot row each keep of a plan is drawn in, for a chart: time from left to right, one row a slot.
// It knows nothing of plan files and rents.
#![tactic(auto)]

ghost use Rattle.lanes.specs.Lanes.{Laned};

use links::Links;
use model::{Refusal, Requests};
use replay::kept::Kept;

mod rows;

// The row of each request of a trace in the first n places, the rest kept; or the first of refusals 1 to 8, 11 and 13 to 15
// that holds, and all kept.
pub fn lanes(trace: &[u8], flags: &[u8], rows: &mut [u8; Requests::MAX]) -> Result<(), Refusal>
    ensures { Laned trace.now flags.now rows.old result rows.new }
{
    replay::replay(trace, flags)?;
    let mut links = Links::new();
    links.fill(trace)?;
    let kept = Kept {
        flags,
        links: &links,
    };
    rows::draw(trace, &kept, rows);
    Ok(())
}
