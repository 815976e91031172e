// Two plans for V17 at w 2. The second differs in flag 4 alone, which holds three items in gap 4:
// the plan that such a network reads off.
use crate::curve::{self, Example};

pub fn run<O: Print>(out: &O) {
    let mut trace = [0u8; curve::TRACE];
    Example::reads(b"bccaabcb", 4).lay(2, &mut trace);
    let mut plan = [0u8; curve::PLAN];
    // Whether it was written, the judge tells below.
    let _ = writer::write(
        &trace,
        &[1, 1, 1, 0, 0, 1, 0, 0],
        &[0, 0, 0, 6, 0, 0, 0, 0],
        &mut plan,
    );
    judged(out, "11100100", &trace, &plan);
    plan[plan::HEAD + 3] = 1;
    judged(out, "11110100", &trace, &plan);
}

fn judged<O: Print>(out: &O, flags: &str, trace: &[u8], plan: &[u8]) {
    let _ = match judge::judge(trace, plan) {
        Ok(cost) => println!(out; "V17 flags {flags} accepted {cost}"),
        Err(refusal) => println!(out; "V17 flags {flags} {refusal}"),
    };
}
