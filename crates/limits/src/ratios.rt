// Gap ratios, each of a least cost and a measured one: the two of the document, and the limits.
use ratio::Gap;

pub fn run<O: Print>(out: &O) {
    rated(out, 44, 44);
    rated(out, 44, 176);
    rated(out, 0, 0);
    rated(out, 0, 1);
    rated(out, 2048000000, 2048000000);
    rated(out, 512000000, 2048000000);
    rated(out, 2048000000, 2048000001);
    rated(out, 2048000001, 2048000000);
    rated(out, 45, 44);
    rated(out, 1, 0);
}

fn rated<O: Print>(out: &O, least: u64, measured: u64) {
    let _ = print!(out; "{measured} by {least}: ");
    let _ = match ratio::ratio(least, measured) {
        Ok(Gap::NoCost) => println!(out; "no cost"),
        Ok(Gap::NoRatio) => println!(out; "no ratio"),
        Ok(Gap::Ratio(quotient)) => println!(out; "ratio {quotient}"),
        Err(refusal) => println!(out; "{refusal}"),
    };
}
