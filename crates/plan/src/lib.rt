// Plan files: the refusals 9 to 12 on top of a trace's, the stated cost, and the flags and rents as parts of the plan's own bytes.
// It knows nothing of what flags and rents mean.
// Numbers are narrowed by `as`: that nothing is lost is proved, and `try_from` would make a Result that is never an Err.
#![tactic(auto)]

ghost use Rattle.std.specs.Prelude.{◌≡◌, ◌+◌, ◌<◌, get_or};
ghost use Rattle.model.specs.Refusals.{said};
ghost use Rattle.trace.specs.TraceFile.{requests_at};
ghost use Rattle.plan.specs.PlanFile.{length_of, shape_of, stated_at, rent_in, section_tried, flags_of, rents_of, rents_tried};
ghost use Rattle.plan.specs.Reading.{rents_into};

use model::{Refusal, Rent, Requests};

mod rows;

// How many bytes stand before the flags.
pub const HEAD: usize = 16;

// How many bytes a rent has.
pub const RENT: usize = 4;

// A byte more than the longest sound plan has, so that a longer file is seen to be too long.
pub const ROOM: usize = 5 * Requests::MAX + 17;

// The first of refusals 1 to 12 that holds of a trace and a plan.
#[tactic(auto, unfolding(crate::specs::PlanFile::section_tried))]
pub fn check(trace: &[u8], plan: &[u8]) -> Result<(), Refusal>
    ensures { said result ≡ section_tried trace.now plan.now }
{
    trace::check(trace)?;
    rows::tried(trace, plan)
}

// How long a plan for the trace is.
pub fn size(trace: &[u8]) -> usize
    ensures { result ≡ length_of (shape_of (requests_at trace.now)) }
{
    HEAD + (1 + RENT) * trace::requests(trace)
}

// The flags, a byte each: a part of the plan, and the empty part with a refusal.
pub fn flags<'a>(trace: &[u8], plan: &'a [u8]) -> &'a [u8]
    ensures { result.now ≡ flags_of trace.now plan.now }
{
    match check(trace, plan) {
        Err(_) => &plan[..0],
        Ok(()) => {
            let start = HEAD;
            let end = start + trace::requests(trace);
            &plan[start..end]
        }
    }
}

// The rents, four bytes each: a part of the plan, and the empty part with a refusal. One function for both parts is no plainer: it
// would be handed where a part begins and ends, and owe that the plan reaches there.
pub fn rents<'a>(trace: &[u8], plan: &'a [u8]) -> &'a [u8]
    ensures { result.now ≡ rents_of trace.now plan.now }
{
    match check(trace, plan) {
        Err(_) => &plan[..0],
        Ok(()) => {
            let start = HEAD + trace::requests(trace);
            &plan[start..]
        }
    }
}

// The cost that the plan states.
pub fn stated_cost(plan: &[u8]) -> u64
    ensures { result ≡ stated_at plan.now }
{
    fields::number_at::<8>(plan, 8)
}

// The flag of request t, counted from 0. Of a plan that is not checked it may be any byte, so it is no bool.
pub fn flag(plan: &[u8], t: usize) -> u64
    ensures { (result ≡ get_or plan.now (16 + t) 0) × (result < 256) }
{
    if plan.len() <= t {
        0
    } else {
        fields::byte_at(plan, HEAD + t)
    }
}

// Rent t of a rents' part, counted from 0.
pub fn rent(part: &[u8], t: usize) -> u64
    ensures { (result ≡ rent_in part.now t) × (result < 4294967296) }
{
    if part.len() / RENT < t {
        0
    } else {
        fields::number_at::<4>(part, RENT * t)
    }
}

// The rents of a rents' part as numbers, as many as `out` has places for; the rest of `out` is kept. The part has four bytes to a
// number, so that it is read at t as well.
pub fn read_rents(part: &[u8], out: &mut [u32])
    ensures { out.new ≡ rents_into part.now out.old }
{
    let n = out.len().min(part.len() / RENT);
    for t in 0..n {
        out[t] = rent(part, t) as u32;
    }
}

// Refusal 17 at the first gap whose rent is too large.
pub fn check_rents(rents: &[u32]) -> Result<(), Refusal>
    ensures { said result ≡ rents_tried 0 rents.now }
{
    for (t, rent) in rents.iter().enumerate() {
        if Rent::MAX < u64::from(*rent) {
            return Err(Refusal::Rent(t as u64 + 1));
        }
    }
    Ok(())
}
