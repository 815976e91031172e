// A schedule of a plan: what each request pays and why, as numbers and as a line laid into a lent page.
// A line's call takes the array and answers a length, although `pages::Page` has both: its clause `Lies` names the lent array.
// `request` and `last` have each an arm for a refusal: `told(audit::audit(..), slots, page, |t, page| lay(..))` would be no shorter.
#![tactic(auto)]

mod numbers;

ghost use Rattle.std.specs.Prelude.{◌≡◌};
ghost use Rattle.model.specs.Refusals.{answered};
ghost use Rattle.pages.specs.Pages.{Lies};
ghost use Rattle.schedule.specs.Schedule.{stepped_of, heading_line, step_line, word_of, request_page, last_page};

use model::Refusal;
use replay::Row;
use sentences::{ROOM, lay};

// What happens at a request, counted from 1: whether it is a write, its item and cost, whether its item is held before it and after
// it, its charge and the row that tells why, how many items of how many slots the gap after it holds, and that gap's rent.
#[derive(Clone, Copy, Debug, PartialEq, Eq)]
pub struct Step {
    pub no: u64,
    pub write: bool,
    pub item: u64,
    pub cost: u64,
    pub before: bool,
    pub after: bool,
    pub charge: u64,
    pub row: Row,
    pub within: u64,
    pub slots: u64,
    pub rent: u64,
}

impl Step {
    // Which word tells its row, in the order in which a line has them: a number, since a text's sign takes one.
    pub fn word(&self) -> u64
        ensures { result ≡ word_of self.now.row }
    {
        match self.row {
            Row::ReadHit => 0,
            Row::ReadFill => 1,
            Row::ReadPast => 2,
            Row::WriteHit => 3,
            Row::WritePast => 4,
        }
    }
}

// What happens at request t, counted from 0, and none past the last; or the first of refusals 1 to 17 that holds.
pub fn step_of(trace: &[u8], plan: &[u8], t: usize) -> Result<Option<Step>, Refusal>
    ensures { answered result ≡ stepped_of trace.now plan.now t }
{
    audit::audit(trace, plan)?;
    if trace::requests(trace) <= t {
        return Ok(None);
    }
    Ok(Some(numbers::of_plan(trace, plan, t)))
}

// The line above the requests.
pub fn heading(page: &mut [u8; ROOM]) -> usize
    ensures { Lies heading_line page.old result page.new }
{
    lay(
        b"  no  kind    item     cost  before  after   charge  why            in gap       rent\n",
        &[],
        page,
    )
}

// The line of request t, counted from 0: nothing past the last.
pub fn request(trace: &[u8], plan: &[u8], t: usize, page: &mut [u8; ROOM]) -> usize
    ensures { Lies (request_page trace.now plan.now t) page.old result page.new }
{
    match step_of(trace, plan, t) {
        Ok(Some(s)) => line(s, page),
        Ok(None) => 0,
        Err(r) => sentences::refusal(r, trace::slots(trace) as u64, page),
    }
}

// The line below the requests: all four totals.
pub fn last(trace: &[u8], plan: &[u8], page: &mut [u8; ROOM]) -> usize
    ensures { Lies (last_page trace.now plan.now) page.old result page.new }
{
    match audit::audit(trace, plan) {
        Ok(t) => lay(
            b"total @, read misses @, fills @, write hits @\n",
            &[t.total, t.misses, t.fills, t.strikes],
            page,
        ),
        Err(r) => sentences::refusal(r, trace::slots(trace) as u64, page),
    }
}

// A request in columns.
fn line(s: Step, page: &mut [u8; ROOM]) -> usize
    ensures { Lies (step_line s) page.old result page.new }
{
    lay(
        b"@@@@  [read |write]@@@@@@@ @@@@@@@@  [no |yes]     [no |yes]@@@@@@@@@@@  \
        [hit          |miss and fill|miss, pass by|write hit    |write past   ]  @ of @ @@@@@@@@@@\n",
        &[
            s.no,
            u64::from(s.write),
            s.item,
            s.cost,
            u64::from(s.before),
            u64::from(s.after),
            s.charge,
            s.word(),
            s.within,
            s.slots,
            s.rent,
        ],
        page,
    )
}
