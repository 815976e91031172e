// Trace files: every byte slice is answered with the header, or with a refusal 1 to 8 and its place.
// The readers are total: past the end bytes count as 0. It knows nothing of plans.
#![tactic(auto)]

ghost use Rattle.std.specs.Prelude.{◌≡◌, ◌<◌, eqb};
ghost use Rattle.model.specs.Refusals.{answered};
ghost use Rattle.trace.specs.TraceFile.{slots_at, requests_at, fill_at, item_at, kind_at, cost_at};
ghost use Rattle.trace.specs.Answers.{check_of};

use model::{Refusal, Requests};

mod rows;

// A byte more than the longest sound trace has, so that a longer file is seen to be too long.
pub const ROOM: usize = 8 * Requests::MAX + 13;

// What stands at the head of a trace: w, n, F, and where the first record begins.
#[derive(Clone, Copy)]
pub struct Header {
    pub slots: usize,
    pub requests: usize,
    pub fill: u64,
    pub first: usize,
}

impl Header {
    // How many bytes it has: the first record follows it.
    pub const SIZE: usize = 12;
}

// w.
pub fn slots(trace: &[u8]) -> usize
    ensures { (result ≡ slots_at trace.now) × (result < 256) }
{
    fields::byte_at(trace, 5) as usize
}

// n.
pub fn requests(trace: &[u8]) -> usize
    ensures { (result ≡ requests_at trace.now) × (result < 65536) }
{
    fields::number_at::<2>(trace, 6) as usize
}

// F.
pub fn fill(trace: &[u8]) -> u64
    ensures { (result ≡ fill_at trace.now) × (result < 4294967296) }
{
    fields::number_at::<4>(trace, 8)
}

// The item of record t, counted from 0.
pub fn item(trace: &[u8], t: usize) -> u64
    ensures { (result ≡ item_at trace.now t) × (result < 65536) }
{
    fields::number_at::<2>(trace, rows::record_at(trace, t))
}

// Its kind: 0 read, 1 write. Of a trace that is not checked it may be any byte, so it is no enum.
pub fn kind(trace: &[u8], t: usize) -> u64
    ensures { (result ≡ kind_at trace.now t) × (result < 256) }
{
    fields::byte_at(trace, rows::record_at(trace, t) + 2)
}

// Whether it is a write.
pub fn is_write(trace: &[u8], t: usize) -> bool
    ensures { result ≡ eqb (kind_at trace.now t) 1 }
{
    kind(trace, t) == 1
}

// Its cost.
pub fn cost(trace: &[u8], t: usize) -> u64
    ensures { (result ≡ cost_at trace.now t) × (result < 4294967296) }
{
    fields::number_at::<4>(trace, rows::record_at(trace, t) + 4)
}

// The header, or the first of refusals 1 to 8 that holds.
pub fn check(trace: &[u8]) -> Result<Header, Refusal>
    ensures { answered result ≡ check_of trace.now }
{
    rows::tried(trace)?;
    Ok(Header {
        slots: slots(trace),
        requests: requests(trace),
        fill: fill(trace),
        first: Header::SIZE,
    })
}
