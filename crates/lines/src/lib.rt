// The one line that a program prints as its answer, laid from the start of a lent page. Each call answers how long the line is.
// A call takes the array and answers a length, although `pages::Page` has both: its clause `Lies` names the lent array, and says that the
// whole line has room in it.
#![tactic(auto)]

ghost use Rattle.std.specs.Prelude.{◌≤◌, ◌≡◌, ◌++◌, length};
ghost use Rattle.model.specs.Refusals.{number_of, place_of};
ghost use Rattle.pages.specs.Letters.{letters};
ghost use Rattle.pages.specs.Pages.{Lies};
ghost use Rattle.decimal.specs.Decimal.{decimal};
ghost use Rattle.lines.specs.Lines.{least_line, accepted_line, refused_line};

use model::Refusal;
use pages::Page;

// Room for every line: the longest is `refused N at P` with twenty digits each, 53 bytes.
pub const ROOM: usize = 64;

// `least C`.
#[tactic(auto, unfolding(crate::specs::Lines::least_line))]
pub fn least(cost: u64, line: &mut [u8; ROOM]) -> usize
    ensures { Lies (least_line cost) line.old result line.new }
{
    worded(b"least ", cost, line)
}

// `accepted C`.
#[tactic(auto, unfolding(crate::specs::Lines::accepted_line))]
pub fn accepted(cost: u64, line: &mut [u8; ROOM]) -> usize
    ensures { Lies (accepted_line cost) line.old result line.new }
{
    worded(b"accepted ", cost, line)
}

// `refused N at P`.
pub fn refused(r: Refusal, line: &mut [u8; ROOM]) -> usize
    ensures { Lies (refused_line (number_of r) (place_of r)) line.old result line.new }
{
    refusal(r.number(), r.place(), line)
}

// `refused N at P` of two numbers, which may be no refusal's: so all that could be laid before still can. Refusal's Display prints the
// same, but to a formatter: the clause `Lies` names bytes in the lent array.
pub fn refusal(number: u64, place: u64, line: &mut [u8; ROOM]) -> usize
    ensures { Lies (refused_line number place) line.old result line.new }
{
    let mut page = Page::new(line);
    page.bytes(b"refused ");
    decimal::lay(&mut page, number);
    page.bytes(b" at ");
    decimal::lay(&mut page, place);
    page.byte(b'\n');
    page.filled
}

// The line itself: the first bytes of the page, as many as a call answered.
pub use pages::first as shown;

// A word and a cost.
fn worded(word: &[u8], cost: u64, line: &mut [u8; ROOM]) -> usize
    requires { length word.now ≤ 12 }
    ensures { Lies (word.now ++ (decimal cost ++ letters "\n")) line.old result line.new }
{
    let mut page = Page::new(line);
    page.bytes(word);
    decimal::lay(&mut page, cost);
    page.byte(b'\n');
    page.filled
}
