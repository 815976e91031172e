// Writing a plan file from a trace, flags and rents: the cost is worked out, and a refusal leaves the buffer as it was.
#![tactic(auto)]

ghost use Rattle.writer.specs.Promise.{Wrote};

use model::Refusal;

mod bytes;
mod rows;

// The plan's cost, its bytes from the buffer's start, and the rest as it was; or the first of refusals 1 to 8, 11, 13, 14, 15, 17
// and 19 that holds.
pub fn write(trace: &[u8], flags: &[u8], rents: &[u32], buffer: &mut [u8]) -> Result<u64, Refusal>
    ensures { Wrote trace.now flags.now rents.now buffer.old result buffer.new }
{
    let cost = rows::tried(trace, flags, rents, buffer.len())?;
    bytes::plan(buffer, cost, flags, rents);
    Ok(cost)
}
