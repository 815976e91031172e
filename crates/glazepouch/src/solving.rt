// `least` and `solve`: the least cost of a trace, and a plan file that proves it.
use crate::said;
use disk::System;
use std::io;
use std::rt::{Env, Files};

// The least cost of the trace that the first word after the command names; where a word is given that names a file, with a plan of
// that cost written to it: as a whole or not at all. What can't be loaded or written has been said. The four parameters travel once from a
// call to the next: a struct of them would be made here and taken apart there.
pub fn solve<R: Files + Env + Print, E: Print>(
    system: &System<R, E>,
    file: Option<usize>,
    trace: &mut [u8; trace::ROOM],
    plan: &mut [u8; plan::ROOM],
) -> io::Result<()> {
    match system.load_argument(2, trace) {
        Some(n) => solved(system, file, &trace[..n], plan),
        None => Ok(()),
    }
}

// Solves the trace, writes its plan where a word names a file for it, and says the cost.
fn solved<R: Files + Env + Print, E: Print>(
    system: &System<R, E>,
    file: Option<usize>,
    trace: &[u8],
    plan: &mut [u8; plan::ROOM],
) -> io::Result<()> {
    let found = solver::solve(trace, plan);
    if let Some(word) = file
        && found.is_ok()
        && kept(system, word, trace, plan).is_none()
    {
        return Ok(());
    }
    said::least(system.rt, trace, found)
}

// Writes the plan's file. None, as of `save`, means that the failure has been said: no error is left to hand on.
fn kept<R: Files + Env, E: Print>(
    system: &System<R, E>,
    word: usize,
    trace: &[u8],
    plan: &[u8; plan::ROOM],
) -> Option<()> {
    let mut name = [0u8; disk::PATH_MAX];
    let n = system.argument(word, &mut name)?;
    system.save(&name[..n], pages::first(plan, plan::size(trace)))
}
