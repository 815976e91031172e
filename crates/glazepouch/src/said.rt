// All that goes to standard output: each answer is laid into a page by a call that promises its bytes, and nothing but that page may
// be printed. Each call answers with the error of standard output where the system did not take it.
ghost use Rattle.std.specs.Prelude.{◌≡◌};
ghost use Rattle.pages.specs.Pages.{Lies};
ghost use Rattle.sentences.specs.Sentences.{answer_page};
ghost use Rattle.answers.specs.Answers.{rated_page};
ghost use Rattle.model.specs.Refusals.{answered};
ghost use Rattle.solver.proofs.Promise.{LeastOf};
ghost use Rattle.glazepouch.specs.Printed.{page_of, least_page, Told};

use model::Refusal;
use sentences::{ROOM, shown};
use std::io;

// What can be printed of a trace and a plan.
#[derive(Clone, Copy)]
pub enum Part {
    Judgement,
    Totals,
    Floor,
    Heading,
    Request(usize),
    Last,
}

// Prints one of them.
pub fn tell<O: Print>(out: &O, asked: Part, trace: &[u8], plan: &[u8]) -> io::Result<()> {
    let mut page = [0u8; ROOM];
    let size = lay_part(asked, trace, plan, &mut page);
    print_part(out, asked, trace, plan, shown(&page, size))
}

// The parts are an enum and no closures: `page_of` of specs/Printed tells a part's bytes.
fn lay_part(asked: Part, trace: &[u8], plan: &[u8], page: &mut [u8; ROOM]) -> usize
    ensures { Lies (page_of asked trace.now plan.now) page.old result page.new }
{
    match asked {
        Part::Judgement => answers::judged(trace, plan, page),
        Part::Totals => answers::audited(trace, plan, page),
        Part::Floor => answers::floored(trace, plan, page),
        Part::Heading => schedule::heading(page),
        Part::Request(t) => schedule::request(trace, plan, t, page),
        Part::Last => schedule::last(trace, plan, page),
    }
}

// Trace and plan are not read, here and below: they are there so that the bytes can be asked to be their answer. Each print has a
// function of its own, since what it asks is the promise of what is printed: `page_of`, `Told` or `rated_page`.
fn print_part<O: Print>(
    out: &O,
    asked: Part,
    trace: &[u8],
    plan: &[u8],
    bytes: &[u8],
) -> io::Result<()>
    requires { bytes.now ≡ page_of asked trace.now plan.now }
{
    out.write_all(bytes)
}

// Prints what solve found of a trace.
pub fn least<O: Print>(out: &O, trace: &[u8], found: Result<u64, Refusal>) -> io::Result<()>
    requires { LeastOf trace.now (answered found) }
{
    let mut page = [0u8; ROOM];
    let size = lay_least(found, &mut page);
    print_least(out, trace, shown(&page, size))
}

fn lay_least(found: Result<u64, Refusal>, page: &mut [u8; ROOM]) -> usize
    ensures { Lies (answer_page 0 least_page (answered found)) page.old result page.new }
{
    match found {
        Ok(cost) => sentences::lay(b"least @\n", &[cost], page),
        Err(r) => sentences::refusal(r, 0, page),
    }
}

fn print_least<O: Print>(out: &O, trace: &[u8], bytes: &[u8]) -> io::Result<()>
    requires { Told trace.now bytes.now }
{
    out.write_all(bytes)
}

// Prints how far a measured cost is above the least.
pub fn ratio<O: Print>(out: &O, least: u64, measured: u64) -> io::Result<()> {
    let mut page = [0u8; ROOM];
    let size = answers::rated(least, measured, &mut page);
    print_ratio(out, least, measured, shown(&page, size))
}

fn print_ratio<O: Print>(out: &O, least: u64, measured: u64, bytes: &[u8]) -> io::Result<()>
    requires { bytes.now ≡ rated_page least measured }
{
    out.write_all(bytes)
}
