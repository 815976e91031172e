// What the solver starts from: where the ways of a trace's network come from, what its requests pay, and the first worths.
#![tactic(auto)]

ghost use Rattle.opening.specs.Opened.{Opened};

use links::Links;
use model::{Refusal, Requests};
use trace::Header;

// Of a sound trace the three lists are filled; of any other all is kept. The next and previous requests are needed no longer than
// this call, so they stand here.
pub fn begin(
    trace: &[u8],
    from: &mut [u16; ways::PLACES],
    charge: &mut [u32; Requests::MAX],
    worth: &mut [u32; worths::PLACES],
) -> Result<Header, Refusal>
    ensures { Opened trace.now from.old charge.old worth.old result from.new charge.new worth.new }
{
    let mut links = Links::new();
    let header = links.fill(trace)?;
    ways::sources(&links.next, &links.prev, header.requests, from);
    ways::charges(trace, charge);
    worths::start(trace, &links.next, worth);
    Ok(header)
}
