// The lines that are printed: what was tried, and after a colon what was answered.
use model::Refusal;
use std::fmt::Display;

// `NAME: WORD VALUE`, or `NAME: refused N at P`. Here and in the other cases, a line that standard output does not take is left out,
// and the next one is tried.
pub fn answer<O: Print, N: Display + Drop, T: Display + Drop>(
    out: &O,
    name: N,
    word: &str,
    answer: Result<T, Refusal>,
) {
    let _ = match answer {
        Ok(value) => println!(out; "{name}: {word} {value}"),
        Err(refusal) => println!(out; "{name}: {refusal}"),
    };
}
