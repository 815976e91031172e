// Small random traces against an independent program: standard input holds them with the least
// costs that the second program (tests/second) found by trying every set in every gap. Each is
// solved, the plan is judged, and both costs are compared with the stored one. `tests/second/store`
// makes the file `stdin` again; the file `stdout` names how many traces it was asked for.
//
// A trace is stored as its length in two bytes, its bytes, and its least cost in four.
#![tactic(auto)]

use std::io;
use std::io::Read;

// How long the longest stored trace is, which has twelve requests, with its cost after it, and a plan for it. Each program of cases
// has its own longest one, and so its own lengths.
const TRACE: usize = 108;

const STORED: usize = 112;

const PLAN: usize = 76;

// A stored trace of this length, and the four bytes of its cost. The length stands beside the bytes, which have a fixed room: nothing
// here uses the heap.
#[derive(Drop)]
struct Stored {
    bytes: [u8; STORED],
    length: usize,
}

// A stored trace that is cut short or too long.
#[derive(Drop)]
struct Broken;

fn main(rt: HostRuntime) {
    let _ = tell(&mut rt.stdin(), &rt);
}

// Tells how many traces agree. A proved loop has to end, and nothing says that the input does: so it counts up to a number that no
// file has.
fn tell<I: Read, O: Print>(input: &mut I, out: &O) -> io::Result<()> {
    for count in 0..1000000 {
        match next(input) {
            Ok(Some(stored)) if stored.agrees() => {}
            Ok(Some(_)) => return println!(out; "{count} traces agree, and the next does not"),
            Ok(None) => return println!(out; "{count} traces agree"),
            Err(Broken) => {
                return println!(out; "{count} traces agree, and the next is cut short or too long");
            }
        }
    }
    Ok(())
}

// The next stored trace; None at the end of the input.
fn next<I: Read>(input: &mut I) -> Result<Option<Stored>, Broken> {
    let mut size = [0u8; 2];
    if input.read(&mut size[..1]).unwrap_or(0) == 0 {
        return Ok(None);
    }
    input.read_exact(&mut size[1..]).map_err(|_| Broken)?;
    let length = usize::from(u16::from_le_bytes(size));
    if TRACE < length {
        return Err(Broken);
    }
    let mut bytes = [0u8; STORED];
    input
        .read_exact(&mut bytes[..length + 4])
        .map_err(|_| Broken)?;
    Ok(Some(Stored { bytes, length }))
}

impl Stored {
    // Whether solve answers the stored cost with a plan that the judge accepts at the same cost.
    fn agrees(&self) -> bool {
        let trace = records::first(&self.bytes, self.length);
        let least = fields::number_at::<4>(&self.bytes, self.length);
        let mut plan = [0u8; PLAN];
        let solved = solver::solve(trace, &mut plan);
        let plan = records::first(&plan, plan::size(trace));
        solved == Ok(least) && judge::judge(trace, plan) == Ok(least)
    }
}
