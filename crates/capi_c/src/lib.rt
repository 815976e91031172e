// The exports of include/glazepouch.h: each calls the function of its name in capi, and states its clauses again.
// They are a crate of their own, since a crate is a library or a static library.
#![tactic(auto)]

ghost use Rattle.std.specs.Prelude.{◌≡◌, length};
ghost use Rattle.plan.specs.PlanFile.{section_tried};
ghost use Rattle.audit.specs.Audit.{audit_of};
ghost use Rattle.judge.specs.Judge.{judge_of};
ghost use Rattle.floor.specs.Floor.{floor_of};
ghost use Rattle.ratio.specs.Ratio.{ratio_of};
ghost use Rattle.writer.specs.Write.{write_of, buffer_of};
ghost use Rattle.capi.specs.Codes.{Solves, code_of_tried, code_of, value_or, totals_or, kind_or, ratio_or};

// Total cost, read misses, fills and write hits of a plan. Refusals 1 to 17.
#[unsafe(no_mangle)]
pub extern "C" fn gp_audit(trace: &[u8], plan: &[u8], totals: &mut [u64; 4]) -> u64
    ensures value { result ≡ code_of (audit_of trace.now plan.now) }
    ensures totals_after { totals.new ≡ totals_or (audit_of trace.now plan.now) totals.old }
{
    capi::gp_audit(trace, plan, totals)
}

// The cost at which a plan is accepted. Refusals 1 to 18.
#[unsafe(no_mangle)]
pub extern "C" fn gp_judge(trace: &[u8], plan: &[u8], cost: &mut u64) -> u64
    ensures value { result ≡ code_of (judge_of trace.now plan.now) }
    ensures cost_after { cost.new ≡ value_or (judge_of trace.now plan.now) cost.old }
{
    capi::gp_judge(trace, plan, cost)
}

// The floor of a list of rents. Refusals 1 to 8, 11, 17.
#[unsafe(no_mangle)]
pub extern "C" fn gp_floor(trace: &[u8], rents: &[u32], floor: &mut i64) -> u64
    ensures value { result ≡ code_of (floor_of trace.now rents.now) }
    ensures floor_after { floor.new ≡ value_or (floor_of trace.now rents.now) floor.old }
{
    capi::gp_floor(trace, rents, floor)
}

// The plan file of flags and rents, from the buffer's start; the rest of the buffer is kept. Refusals 1 to 8, 11, 13, 14, 15, 17, 19.
#[unsafe(no_mangle)]
pub extern "C" fn gp_write(
    trace: &[u8],
    flags: &[u8],
    rents: &[u32],
    buffer: &mut [u8],
    cost: &mut u64,
) -> u64
    ensures value { result ≡ code_of (write_of trace.now flags.now rents.now (length buffer.old)) }
    ensures buffer_after { buffer.new ≡ buffer_of trace.now flags.now rents.now buffer.old }
    ensures cost_after { cost.new ≡ value_or (write_of trace.now flags.now rents.now (length buffer.old)) cost.old }
{
    capi::gp_write(trace, flags, rents, buffer, cost)
}

// A least-cost plan from the buffer's start, and its cost. Refusals 1 to 8, then 19.
#[unsafe(no_mangle)]
pub extern "C" fn gp_solve(trace: &[u8], buffer: &mut [u8], cost: &mut u64) -> u64
    ensures { Solves trace.now buffer.old cost.old result buffer.new cost.new }
{
    capi::gp_solve(trace, buffer, cost)
}

// Whether the flags and the rents can be taken from a plan's bytes. Refusals 1 to 12.
#[unsafe(no_mangle)]
pub extern "C" fn gp_section(trace: &[u8], plan: &[u8]) -> u64
    ensures { result ≡ code_of_tried (section_tried trace.now plan.now) }
{
    capi::gp_section(trace, plan)
}

// The measured cost by the least: the kind is 0 for no cost, 1 for no ratio, 2 for a ratio. Refusals 20, 21.
#[unsafe(no_mangle)]
pub extern "C" fn gp_ratio(least: u64, measured: u64, kind: &mut u8, ratio: &mut f64) -> u64
    ensures value { result ≡ code_of (ratio_of least measured) }
    ensures kind_after { kind.new ≡ kind_or (ratio_of least measured) kind.old }
    ensures ratio_after { ratio.new ≡ ratio_or (ratio_of least measured) ratio.old }
{
    capi::gp_ratio(least, measured, kind, ratio)
}
