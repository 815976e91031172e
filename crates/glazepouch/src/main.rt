// `glazepouch`: the engineer's program. Each command reads its files, asks the proved library, and says the answer in words.
#![tactic(auto)]

mod said;
mod solving;
mod words;

use disk::System;
use said::{Part, tell};
use std::io;
use std::rt::{Env, Files};
use words::Command;

// The two buffers serve every command, and each command has a call of its own, so that the solver finds little on the stack.
// A table of the commands would list the same closures.
fn main(rt: HostRuntime) {
    let err = rt.stderr();
    let system = System { rt: &rt, err: &err };
    let mut trace = [0u8; trace::ROOM];
    let mut plan = [0u8; plan::ROOM];
    let Some(command) = words::asked(&system) else {
        let _ = help(&err);
        return;
    };
    let answered = match command {
        Command::Least => solving::solve(&system, None, &mut trace, &mut plan),
        Command::Solve => solving::solve(&system, Some(3), &mut trace, &mut plan),
        Command::Judge => on_plan(&system, &mut trace, &mut plan, |trace, plan| {
            tell(&rt, Part::Judgement, trace, plan)
        }),
        Command::Audit => on_plan(&system, &mut trace, &mut plan, |trace, plan| {
            tell(&rt, Part::Totals, trace, plan)
        }),
        Command::Floor => on_plan(&system, &mut trace, &mut plan, |trace, plan| {
            tell(&rt, Part::Floor, trace, plan)
        }),
        Command::Schedule => on_plan(&system, &mut trace, &mut plan, |trace, plan| {
            schedule(&rt, trace, plan)
        }),
        Command::Ratio => on_costs(&system),
    };
    if let Err(error) = answered {
        system.fail(b"standard output", error);
    }
}

// The commands on a trace and a plan. What can't be loaded has been said.
#[inline(never)]
fn on_plan<R: Files + Env, E: Print, T: FnOnce(&[u8], &[u8]) -> io::Result<()>>(
    system: &System<R, E>,
    trace: &mut [u8; trace::ROOM],
    plan: &mut [u8; plan::ROOM],
    told: T,
) -> io::Result<()>
    requires { T.IsAlwaysCallable told }
{
    match system.load_two(2, trace, plan) {
        Some((n, m)) => told(&trace[..n], &plan[..m]),
        None => Ok(()),
    }
}

// The heading, a line for each request, and the totals; of a plan that the audit refuses, the refusal alone.
fn schedule<O: Print>(out: &O, trace: &[u8], plan: &[u8]) -> io::Result<()> {
    if audit::audit(trace, plan).is_err() {
        return tell(out, Part::Totals, trace, plan);
    }
    tell(out, Part::Heading, trace, plan)?;
    for t in 0..trace::requests(trace) {
        tell(out, Part::Request(t), trace, plan)?;
    }
    tell(out, Part::Last, trace, plan)
}

// The command on two costs. What is no number has been said.
fn on_costs<R: Env + Print, E: Print>(system: &System<R, E>) -> io::Result<()> {
    let Some(least) = words::read(system, 2) else {
        return Ok(());
    };
    let Some(measured) = words::read(system, 3) else {
        return Ok(());
    };
    said::ratio(system.rt, least, measured)
}

fn help<E: Print>(err: &E) -> io::Result<()> {
    err.write_all(
        b"glazepouch least TRACE             the least cost\n\
            glazepouch solve TRACE PLAN        a plan of least cost, written to the file PLAN\n\
            glazepouch judge TRACE PLAN        whether nothing allowed is cheaper than the plan\n\
            glazepouch audit TRACE PLAN        its total cost, read misses, fills and write hits\n\
            glazepouch floor TRACE PLAN        the floor of its rents\n\
            glazepouch schedule TRACE PLAN     what each request pays and why, a line each\n\
            glazepouch chart TRACE PLAN        a picture of what is held when, as SVG\n\
            glazepouch ratio LEAST MEASURED    how far a measured cost is above the least\n",
    )?;
    err.write_all(b"for example: glazepouch schedule samples/A1.trace samples/A1.plan\n")
}
