// Sentences, laid into a lent page: a text with its numbers, and each refusal in words.
// A call takes the array and answers a length, although `pages::Page` has both: its clause `Laid`, `Cut` or `Lies` names the lent array.
#![tactic(auto)]

ghost use Rattle.std.specs.Prelude.{◌≡◌, ◌++◌, replicate};
ghost use Rattle.model.specs.Refusals.{number_of, place_of};
ghost use Rattle.pages.specs.Pages.{Lies, Cut, write};
ghost use Rattle.pages.specs.Lent.{laid};
ghost use Rattle.decimal.specs.Decimal.{decimal};
ghost use Rattle.sentences.specs.Spelled.{column_of, zeros_of, shown_of, sign_of, spelled};
ghost use Rattle.sentences.specs.Sentences.{crowded_page, refusal_page};
ghost use Rattle.sentences.specs.Signed.{state_of, Small, Signed, led_of, Laid};

use model::Refusal;
use pages::Page;

// Room for every answer but a schedule, which is laid line by line.
pub const ROOM: usize = 256;

// How far a text's signs are read. The page is lent beside it: two structs deep, what the caller's bytes hold at the end gets no proof.
// That its counts can grow by one is asked by each method and is no invariant: a sign that is read uses it up.
#[derive(Clone, Copy)]
struct Pen {
    // How many numbers are taken.
    taken: usize,
    // How many signs of a run stand just before, and how many columns numbers took more than their runs, at most 256: without a
    // limit a long enough text would make it wrap.
    run: usize,
    over: usize,
    // How many words come before the one that is chosen.
    hidden: u64,
}

// The text, with the numbers in turn in place of its signs, 0 where there are too few. A run of @ is a number that ends where
// the run does, or as soon after that as it has room; a run of $ is a number with zeros in front. Of the words in `[a|b|c]` the
// number says which one stands there, from 0 on; the others are left out, and the signs in them take no number. @, $, [, | and ]
// stand for nothing else. What the page has no room for is left out; the answer is how far it is filled.
pub fn lay(text: &[u8], numbers: &[u64], page: &mut [u8; ROOM]) -> usize
    ensures { Laid text.now numbers.now page.old result page.new }
{
    fill(text, numbers, page)
}

// The same on a page of any length.
pub fn fill(text: &[u8], numbers: &[u64], page: &mut [u8]) -> usize
    ensures { Cut (spelled text.now numbers.now) page.old result page.new }
{
    let mut page = Page::new(page);
    write_text(text, numbers, &mut page);
    page.filled
}

// `refused N at P: ` and the sentence for N, from 1 on. The slots are the trace's, which the sentence of 15 names.
pub fn refusal(r: Refusal, slots: u64, page: &mut [u8; ROOM]) -> usize
    ensures { Lies (refusal_page (number_of r) (place_of r) slots) page.old result page.new }
{
    sentence(r.number(), r.place(), slots, page)
}

// The same of two numbers, which may be no refusal's: so all that could be laid before still can.
pub fn sentence(number: u64, place: u64, slots: u64, page: &mut [u8; ROOM]) -> usize
    ensures { Lies (refusal_page number place slots) page.old result page.new }
{
    if number == 15 {
        return crowded(place, slots, page);
    }
    lay(
        b"refused @ at @: [|\
        the trace is shorter than 12 bytes|\
        the trace's mark or version is wrong|\
        the trace has more than 64 slots|\
        the trace has more than 1,024 requests|\
        the fill price is above 1,000,000|\
        the trace's length is not 12 + 8n|\
        request @ is neither read nor write, or its fourth byte is not 0|\
        the cost of request @ is above 1,000,000|\
        the plan is shorter than 16 bytes|\
        the plan's mark, version or zero byte is wrong|\
        the plan's number of requests is not the trace's|\
        the plan's length is not 16 + 5n|\
        the flag of request @ is neither 0 nor 1|\
        flag 1 at request @, its item's last, or a write of an item not held||\
        the stated cost is not the replayed cost|\
        the rent of gap @ is above 2,000,000|\
        the floor is not equal to the cost|\
        the lent buffer is shorter than 16 + 5n|\
        the least or the measured cost is above 2,048,000,000|\
        the measured cost is below the least]\n",
        &[number, place, number, place],
        page,
    )
}

// What is laid: the first bytes of the page, as many as a call answered.
pub use pages::first as shown;

// Refusal 15: more items in a gap than there are slots.
fn crowded(gap: u64, slots: u64, page: &mut [u8; ROOM]) -> usize
    ensures { Lies (crowded_page gap slots) page.old result page.new }
{
    if slots == 1 {
        return lay(
            b"refused 15 at @: more than 1 item in gap @\n",
            &[gap, gap],
            page,
        );
    }
    lay(
        b"refused 15 at @: more than @ items in gap @\n",
        &[gap, slots, gap],
        page,
    )
}

// The text on a page that is filled so far.
fn write_text(text: &[u8], numbers: &[u64], page: &mut Page)
    ensures same { page.new.bytes.ghost_name ≡ page.old.bytes.ghost_name }
    ensures page { laid page.new ≡ write (laid page.old) (spelled text.now numbers.now) }
{
    let mut pen = Pen {
        taken: 0,
        run: 0,
        over: 0,
        hidden: 0,
    };
    for (i, &b) in text.iter().enumerate() {
        let next = text.get(i + 1).copied().unwrap_or(0);
        let n = numbers.get(pen.taken).copied().unwrap_or(0);
        pen.sign(b, next, n, page);
    }
}

impl Pen {
    // One byte of a text, before byte `next`.
    #[tactic(auto, unfolding(crate::specs::Spelled::sign_of))]
    fn sign(&mut self, b: u8, next: u8, n: u64, page: &mut Page)
        requires { Small (state_of self.old) }
        ensures same { page.new.bytes.ghost_name ≡ page.old.bytes.ghost_name }
        ensures signed { Signed (sign_of (state_of self.old) b next n) (laid page.old) self.new (laid page.new) }
    {
        match b {
            b'[' => {
                self.taken += 1;
                self.hidden = n;
            }
            b'|' => self.hidden = self.hidden.wrapping_sub(1),
            b']' => self.hidden = 0,
            _ if 0 < self.hidden => {}
            _ => self.visible(b, next, n, page),
        }
    }

    // One that no choice leaves out.
    #[tactic(auto, unfolding(crate::specs::Spelled::shown_of))]
    fn visible(&mut self, b: u8, next: u8, n: u64, page: &mut Page)
        requires { Small (state_of self.old) }
        ensures same { page.new.bytes.ghost_name ≡ page.old.bytes.ghost_name }
        ensures signed { Signed (shown_of (state_of self.old) b next n) (laid page.old) self.new (laid page.new) }
    {
        match b {
            b'@' | b'$' if next == b => self.run += 1,
            b'@' => self.column(n, page),
            b'$' => self.zeros(n, page),
            _ => page.byte(b),
        }
    }

    // The last @ of a run: its number.
    fn column(&mut self, n: u64, page: &mut Page)
        requires { Small (state_of self.old) }
        ensures same { page.new.bytes.ghost_name ≡ page.old.bytes.ghost_name }
        ensures signed { Signed (column_of (state_of self.old) n) (laid page.old) self.new (laid page.new) }
    {
        let width = self.run + 1;
        let needed = decimal::count(n) + self.over;
        self.led(width.saturating_sub(needed), b' ', n, page);
        self.over = needed.saturating_sub(width).min(256);
    }

    // The last $ of a run: its number.
    fn zeros(&mut self, n: u64, page: &mut Page)
        requires { Small (state_of self.old) }
        ensures same { page.new.bytes.ghost_name ≡ page.old.bytes.ghost_name }
        ensures signed { Signed (zeros_of (state_of self.old) n) (laid page.old) self.new (laid page.new) }
    {
        let width = self.run + 1;
        self.led(width.saturating_sub(decimal::count(n)), b'0', n, page);
    }

    // A number that ends a run, with as many of one byte in front.
    fn led(&mut self, count: usize, lead: u8, n: u64, page: &mut Page)
        requires { Small (state_of self.old) }
        ensures same { page.new.bytes.ghost_name ≡ page.old.bytes.ghost_name }
        ensures signed { Signed (led_of (state_of self.old) count lead n) (laid page.old) self.new (laid page.new) }
    {
        page.repeat(count, lead);
        decimal::lay(page, n);
        self.taken += 1;
        self.run = 0;
        self.hidden = 0;
    }
}
