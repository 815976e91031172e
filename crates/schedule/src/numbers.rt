// What happens at one request, told from the flags as the replay tells it: by the same rows and the same charges.
ghost use Rattle.std.specs.Prelude.{◌≡◌, suc};
ghost use Rattle.model.specs.Plans.{occupancy};
ghost use Rattle.trace.specs.TraceFile.{trace_in};
ghost use Rattle.replay.specs.Replay.{named};
ghost use Rattle.schedule.specs.Schedule.{step_by, step_of};
ghost use Rattle.schedule.specs.Counted.{Audited, Linked};

use crate::Step;
use links::Links;
use replay::kept::Kept;

// Request t of a plan that passes the audit.
pub fn of_plan(trace: &[u8], plan: &[u8], t: usize) -> Step
    requires { Audited trace.now plan.now t }
    ensures { result ≡ step_of trace.now plan.now t }
{
    let mut links = Links::new();
    // The audit has checked the trace.
    let _ = links.fill(trace);
    let kept = Kept {
        flags: plan::flags(trace, plan),
        links: &links,
    };
    of_flags(trace, &kept, t, plan::rent(plan::rents(trace, plan), t))
}

// Request t by the flags and the links.
fn of_flags(trace: &[u8], kept: &Kept, t: usize, rent: u64) -> Step
    requires { Linked trace.now kept.now.flags.now kept.now.links.now.prev t }
    ensures { result ≡ step_by (trace_in trace.now) kept.now.flags.now t rent }
{
    let write = trace::is_write(trace, t);
    let before = kept.held(t);
    let after = kept.flag(t);
    // `paid_of` takes numbers of 32 bits, so that their sum fits; these two were read from four bytes.
    let cost = trace::cost(trace, t);
    let row = replay::row_of(write, before, after);
    let paid = replay::paid_of(row, cost as u32, trace::fill(trace) as u32);
    Step {
        no: t as u64 + 1,
        write,
        item: trace::item(trace, t),
        cost,
        before,
        after,
        charge: paid.total,
        row,
        within: within(trace, kept, t),
        slots: trace::slots(trace) as u64,
        rent,
    }
}

// How many items the gap after request t holds. A kept item is counted in every gap of the keep. Replay's row 15 counts so too, but
// answers the first gap that is crowded, where this answers the count.
fn within(trace: &[u8], kept: &Kept, t: usize) -> u64
    requires { Linked trace.now kept.now.flags.now kept.now.links.now.prev t }
    ensures { result ≡ occupancy (trace_in trace.now).reqs (named (trace_in trace.now) kept.now.flags.now) (suc t) }
{
    let mut count: u64 = 0;
    for s in 0..=t {
        count = count + u64::from(kept.flag(s)) - u64::from(kept.held(s));
    }
    count
}
