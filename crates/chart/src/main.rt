// `glazepouch chart TRACE PLAN`, behind the script at the root: an SVG picture of what is held when, or the refusal of the plan.
#![tactic(auto)]

mod frame;
mod marks;
mod picture;
mod sheet;
mod sizes;

use disk::System;
use std::io;

fn main(rt: HostRuntime) {
    let err = rt.stderr();
    let system = System { rt: &rt, err: &err };
    if system.words() != 3 {
        help(&system);
        return;
    }
    let mut trace = [0u8; trace::ROOM];
    let mut plan = [0u8; plan::ROOM];
    let Some((n, m)) = system.load_two(1, &mut trace, &mut plan) else {
        return;
    };
    if let Err(error) = answer(&rt, &trace[..n], &plan[..m]) {
        system.fail(b"standard output", error);
    }
}

// The picture, where the plan passes the audit. It ends at the first bytes that could not be written.
fn answer<O: Print>(out: &O, trace: &[u8], plan: &[u8]) -> io::Result<()> {
    match audit::audit(trace, plan) {
        Ok(totals) => picture::draw(out, trace, plan, totals),
        Err(r) => sheet::refused(out, r, trace::slots(trace) as u64),
    }
}

// The words are this program's: `least` and `judge` have their own.
fn help<R, E: Print>(system: &System<R, E>) {
    system.say(b"usage: chart TRACE PLAN\nfor example: chart samples/V17.trace samples/V17.plan\n");
}
