// The rows of a write, each tried after those above it.
ghost use Rattle.std.specs.Prelude.{◌≡◌};
ghost use Rattle.model.specs.Refusals.{said, next, answered};
ghost use Rattle.trace.specs.TraceFile.{requests_at};
ghost use Rattle.plan.specs.PlanFile.{rents_tried};
ghost use Rattle.writer.specs.Write.{write_of, buffer_tried};

use model::Refusal;

// The cost, or the first refusal that holds, for a buffer of `room` bytes. The trace's own rows come before the count of the rents.
pub fn tried(trace: &[u8], flags: &[u8], rents: &[u32], room: usize) -> Result<u64, Refusal>
    ensures { answered result ≡ write_of trace.now flags.now rents.now room }
{
    if rents.len() != trace::requests(trace) {
        trace::check(trace)?;
        return Err(Refusal::RequestCount);
    }
    let totals = replay::replay(trace, flags)?;
    self::room(trace, rents, room)?;
    Ok(totals.total)
}

// Rows 17 and 19, for a buffer of `room` bytes.
fn room(trace: &[u8], rents: &[u32], room: usize) -> Result<(), Refusal>
    ensures { said result ≡ next (rents_tried 0 rents.now) (buffer_tried (requests_at trace.now) room) }
{
    plan::check_rents(rents)?;
    if room < plan::size(trace) {
        return Err(Refusal::BufferTooShort);
    }
    Ok(())
}
