// The C interface of include/glazepouch.h, whose exports (crate capi_c) call these: each function makes one proved call, answers 0 when
// the work is done, else the refusal's number + 256 * its place, and on a refusal leaves what is lent as it was.
#![tactic(auto)]

ghost use Rattle.std.specs.Prelude.{◌≡◌, ◌+◌, ◌*◌, [], ◌∷◌, length};
ghost use Rattle.model.specs.Refusals.{number_of, place_of, answered};
ghost use Rattle.plan.specs.PlanFile.{section_tried};
ghost use Rattle.audit.specs.Audit.{audit_of};
ghost use Rattle.judge.specs.Judge.{judge_of};
ghost use Rattle.floor.specs.Floor.{floor_of};
ghost use Rattle.ratio.specs.Ratio.{ratio_of};
ghost use Rattle.writer.specs.Write.{write_of, buffer_of};
ghost use Rattle.capi.specs.Codes.{Codable, Coded, Solves, code_of_tried, code_of, value_or, totals_or, kind_or, ratio_or};

use model::Refusal;
use ratio::Gap;
use replay::Totals;

// The code of a refusal: the C interface has one number for it. It is no From, since it asks that the place fits.
fn code(r: Refusal) -> u64
    requires { Codable (number_of r) (place_of r) }
    ensures { result ≡ number_of r + 256 * place_of r }
{
    r.number() + 256 * r.place()
}

// The code of an answer whose value goes to `out`.
fn coded<T: Copy>(answer: Result<T, Refusal>, out: &mut T) -> u64
    requires { Coded answer }
    ensures value { result ≡ code_of (answered answer) }
    ensures out_after { out.new ≡ value_or (answered answer) out.old }
{
    match answer {
        Ok(value) => {
            *out = value;
            0
        }
        Err(r) => code(r),
    }
}

// The four totals in the order of the C interface.
fn listed(s: Totals) -> [u64; 4]
    ensures { result ≡ s.total ∷ s.misses ∷ s.fills ∷ s.strikes ∷ [] }
{
    [s.total, s.misses, s.fills, s.strikes]
}

// Total cost, read misses, fills and write hits of a plan, in a list as the C interface has them. Refusals 1 to 17.
pub fn gp_audit(trace: &[u8], plan: &[u8], totals: &mut [u64; 4]) -> u64
    ensures value { result ≡ code_of (audit_of trace.now plan.now) }
    ensures totals_after { totals.new ≡ totals_or (audit_of trace.now plan.now) totals.old }
{
    coded(audit::audit(trace, plan).map(listed), totals)
}

// The cost at which a plan is accepted. Refusals 1 to 18.
pub fn gp_judge(trace: &[u8], plan: &[u8], cost: &mut u64) -> u64
    ensures value { result ≡ code_of (judge_of trace.now plan.now) }
    ensures cost_after { cost.new ≡ value_or (judge_of trace.now plan.now) cost.old }
{
    coded(judge::judge(trace, plan), cost)
}

// The floor of a list of rents. Refusals 1 to 8, 11, 17.
pub fn gp_floor(trace: &[u8], rents: &[u32], floor: &mut i64) -> u64
    ensures value { result ≡ code_of (floor_of trace.now rents.now) }
    ensures floor_after { floor.new ≡ value_or (floor_of trace.now rents.now) floor.old }
{
    coded(floor::floor(trace, rents), floor)
}

// The plan file of flags and rents, from the buffer's start; the rest of the buffer is kept. Refusals 1 to 8, 11, 13, 14, 15, 17, 19.
pub fn gp_write(trace: &[u8], flags: &[u8], rents: &[u32], buffer: &mut [u8], cost: &mut u64) -> u64
    ensures value { result ≡ code_of (write_of trace.now flags.now rents.now (length buffer.old)) }
    ensures buffer_after { buffer.new ≡ buffer_of trace.now flags.now rents.now buffer.old }
    ensures cost_after { cost.new ≡ value_or (write_of trace.now flags.now rents.now (length buffer.old)) cost.old }
{
    coded(writer::write(trace, flags, rents, buffer), cost)
}

// A least-cost plan from the buffer's start, and its cost. Refusals 1 to 8, then 19.
pub fn gp_solve(trace: &[u8], buffer: &mut [u8], cost: &mut u64) -> u64
    ensures { Solves trace.now buffer.old cost.old result buffer.new cost.new }
{
    coded(solver::solve(trace, buffer), cost)
}

// Whether the flags and the rents can be taken from a plan's bytes: there is no value that goes out. Refusals 1 to 12.
pub fn gp_section(trace: &[u8], plan: &[u8]) -> u64
    ensures { result ≡ code_of_tried (section_tried trace.now plan.now) }
{
    coded(plan::check(trace, plan), &mut ())
}

// The measured cost by the least: the kind is 0 for no cost, 1 for no ratio, 2 for a ratio, as the C interface numbers them. Refusals
// 20, 21. A gap goes to two lent values and a kind of gap leaves one of them, so `coded`, which has one, does not serve.
pub fn gp_ratio(least: u64, measured: u64, kind: &mut u8, ratio: &mut f64) -> u64
    ensures value { result ≡ code_of (ratio_of least measured) }
    ensures kind_after { kind.new ≡ kind_or (ratio_of least measured) kind.old }
    ensures ratio_after { ratio.new ≡ ratio_or (ratio_of least measured) ratio.old }
{
    match ratio::ratio(least, measured) {
        Ok(Gap::NoCost) => *kind = 0,
        Ok(Gap::NoRatio) => *kind = 1,
        Ok(Gap::Ratio(quotient)) => {
            *kind = 2;
            *ratio = quotient;
        }
        Err(r) => return code(r),
    }
    0
}
