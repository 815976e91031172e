// Replay of flags on a trace: the refusals 13, 14 and 15, and the charge of every request.
// It knows nothing of plan files and rents.
#![tactic(auto)]

ghost use Rattle.std.specs.Prelude.{◌≡◌};
ghost use Rattle.model.specs.Refusals.{answered};
ghost use Rattle.replay.specs.Replay.{replay_of};
ghost use Rattle.replay.specs.Rows.{row_of, paid_in};

use links::Links;
use model::Refusal;

pub mod kept;
mod rows;
mod sums;

// The total cost, and how many read misses, fills and write hits are in it.
#[derive(Clone, Copy, Debug, Default, PartialEq, Eq)]
pub struct Totals {
    pub total: u64,
    pub misses: u64,
    pub fills: u64,
    pub strikes: u64,
}

// The rows of the table of charges: a read of an item held, a read miss that fills and one that passes by the cache, a write of an
// item held, and of one that is not.
#[derive(Clone, Copy, Debug, PartialEq, Eq)]
pub enum Row {
    ReadHit,
    ReadFill,
    ReadPast,
    WriteHit,
    WritePast,
}

// The totals of flags on a trace, or the first of refusals 1 to 8, 11 and 13 to 15 that holds.
pub fn replay(trace: &[u8], flags: &[u8]) -> Result<Totals, Refusal>
    ensures { answered result ≡ replay_of trace.now flags.now }
{
    let mut links = Links::new();
    let header = links.fill(trace)?;
    if flags.len() != header.requests {
        return Err(Refusal::RequestCount);
    }
    let sound = rows::Sound {
        trace,
        kept: kept::Kept {
            flags,
            links: &links,
        },
    };
    sound.tried()?;
    Ok(sound.totals())
}

// The row of a request, by whether its item is held before it and after it.
pub fn row_of(write: bool, before: bool, after: bool) -> Row
    ensures { result ≡ row_of write before after }
{
    match (write, before, after) {
        (true, true, _) => Row::WriteHit,
        (true, false, _) => Row::WritePast,
        (false, true, _) => Row::ReadHit,
        (false, false, true) => Row::ReadFill,
        (false, false, false) => Row::ReadPast,
    }
}

// What a row charges and counts for.
pub fn paid_of(row: Row, cost: u32, fill: u32) -> Totals
    ensures { result ≡ paid_in row cost fill }
{
    let cost = u64::from(cost);
    let fill = u64::from(fill);
    let (total, misses, fills, strikes) = match row {
        Row::ReadHit => (0, 0, 0, 0),
        Row::ReadFill => (cost + fill, 1, 1, 0),
        Row::ReadPast => (cost, 1, 0, 0),
        Row::WriteHit => (cost, 0, 0, 1),
        Row::WritePast => (0, 0, 0, 0),
    };
    Totals {
        total,
        misses,
        fills,
        strikes,
    }
}
