// Where records lie, and rows 1 to 8 in their order.
ghost use Rattle.std.specs.Prelude.{◌≡◌, ℕ, suc, ◌+◌, ◌<◌, ◌≤◌, min, length};
ghost use Rattle.model.specs.Refusals.{said, next};
ghost use Rattle.trace.specs.TraceFile.{record_at, zero_at, requests_at, marked_trace, records_tried, trace_tried};

use model::{Cost, FillPrice, Refusal, Requests, Slots};

// How many bytes a record has.
const RECORD: usize = 8;

// Where record t begins, or the end where it begins past that.
pub fn record_at(trace: &[u8], t: usize) -> usize
    ensures { (min result (length trace.now) ≡ min (record_at trace.now t) (length trace.now)) × (result ≤ length trace.now + 4) }
{
    if trace.len() / RECORD <= t {
        trace.len()
    } else {
        crate::Header::SIZE + RECORD * t
    }
}

// The zero byte of record t.
pub fn zero(trace: &[u8], t: usize) -> u64
    ensures { result ≡ zero_at trace.now t }
{
    fields::byte_at(trace, record_at(trace, t) + 3)
}

// Whether the mark and the version are right. Plan's has another mark and a zero byte more: what both have is one test of a version.
pub fn marked(trace: &[u8]) -> bool
    ensures { result ≡ marked_trace trace.now }
{
    trace.starts_with(b"CTR") && fields::number_at::<2>(trace, 3) == 1
}

// Rows 1 to 6.
#[tactic(auto, unfolding(crate::specs::TraceFile::trace_tried))]
pub fn head(trace: &[u8]) -> Result<(), Refusal>
    ensures { next (said result) (records_tried (requests_at trace.now) 0 trace.now) ≡ trace_tried trace.now }
{
    let w = crate::slots(trace);
    let n = crate::requests(trace);
    let price = crate::fill(trace);
    if trace.len() < crate::Header::SIZE {
        return Err(Refusal::TraceTooShort);
    }
    if !marked(trace) {
        return Err(Refusal::TraceMark);
    }
    if Slots::MAX < w {
        return Err(Refusal::TooManySlots);
    }
    if Requests::MAX < n {
        return Err(Refusal::TooManyRequests);
    }
    if FillPrice::MAX < price {
        return Err(Refusal::FillPrice);
    }
    if trace.len() != crate::Header::SIZE + RECORD * n {
        return Err(Refusal::TraceLength);
    }
    Ok(())
}

// Rows 7 and 8 of record t.
pub fn one(trace: &[u8], t: usize) -> Result<(), Refusal>
    requires { t < 65536 }
    ensures { (k : ℕ) → next (said result) (records_tried k (suc t) trace.now) ≡ records_tried (suc k) t trace.now }
{
    if 1 < crate::kind(trace, t) || zero(trace, t) != 0 {
        return Err(Refusal::Record(t as u64 + 1));
    }
    if Cost::MAX < crate::cost(trace, t) {
        return Err(Refusal::RequestCost(t as u64 + 1));
    }
    Ok(())
}

// Rows 7 and 8, record by record.
pub fn records(trace: &[u8]) -> Result<(), Refusal>
    ensures { said result ≡ records_tried (requests_at trace.now) 0 trace.now }
{
    let n = crate::requests(trace);
    for t in 0..n {
        one(trace, t)?;
    }
    Ok(())
}

// Rows 1 to 8.
pub fn tried(trace: &[u8]) -> Result<(), Refusal>
    ensures { said result ≡ trace_tried trace.now }
{
    head(trace)?;
    records(trace)
}
