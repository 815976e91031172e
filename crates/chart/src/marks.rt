// What a chart draws of a request: the gap after it, its keep, what it asks for, and the mark of what happens at it. Each has
// a title, which a browser shows under the pointer.
use crate::sheet::Sheet;
use replay::Row;
use schedule::Step;
use std::io;

// Which element of the picture a title ends.
#[derive(Clone, Copy)]
enum Titled {
    Text,
    Mark,
}

impl<O: Print> Sheet<'_, O> {
    // Request t as a line through the slots, and the gap after it: dark where it is full.
    pub fn gap(&self, t: u64, here: Step) -> io::Result<()> {
        let x = self.sizes.x(t);
        let end = self.sizes.below(0);
        let y = self.sizes.below(8);
        let width = self.sizes.step.saturating_sub(1);
        let no = t.saturating_add(1);
        let full = self.sizes.slots <= here.within;
        self.put(
            b"<path class=\"v\" d=\"M@ 108V@\"/><rect class=\"[o|s]\" x=\"@\" y=\"@\" width=\"@\" height=\"10\">\
        <title>gap @: @ of @ held, rent @</title></rect>",
            &[
                x,
                end,
                u64::from(full),
                x,
                y,
                width,
                no,
                here.within,
                self.sizes.slots,
                here.rent,
            ],
        )?;
        self.rent_below(x, here.rent, full || here.rent != 0)
    }

    // The rent below a gap, where it is shown: level, or upright where numbers stand close.
    fn rent_below(&self, x: u64, rent: u64, shown: bool) -> io::Result<()> {
        let middle = x.saturating_add(self.sizes.step / 2);
        if !shown {
            self.put(b"\n", &[])
        } else if self.sizes.dense() {
            let left = middle.saturating_add(3);
            self.put(
                b"<text class=\"e\" transform=\"translate(@ @) rotate(-90)\">@</text>\n",
                &[left, self.sizes.below(24), rent],
            )
        } else {
            self.put(
                b"<text class=\"r\" x=\"@\" y=\"@\">@</text>\n",
                &[middle, self.sizes.below(36), rent],
            )
        }
    }

    // A keep from request t to its item's next request, in a slot row, with the item's number where it has room.
    pub fn keep(&self, item: u64, t: u64, next: u64, row: u64) -> io::Result<()> {
        let x = self.sizes.x(t);
        let y = self.sizes.y(row);
        let width = self.sizes.x(next).saturating_sub(x);
        let bar = y.saturating_add(2);
        let hue = item.saturating_mul(47) % 360;
        let slot = row.saturating_add(1);
        let from = t.saturating_add(1);
        let to = next.saturating_add(1);
        let named = has_room(item, width);
        let left = x.saturating_add(9);
        let base = y.saturating_add(14);
        self.put(
            b"<rect class=\"k\" x=\"@\" y=\"@\" width=\"@\" height=\"16\" style=\"fill:hsl(@,70%,82%)\">\
        <title>item @ in slot @, from request @ to request @</title></rect>\
        [|<text class=\"i\" x=\"@\" y=\"@\">@</text>]\n",
            &[
                x,
                bar,
                width,
                hue,
                item,
                slot,
                from,
                to,
                u64::from(named),
                left,
                base,
                item,
            ],
        )
    }

    // Request t, the row of its item after it and before it: what it asks for, above the rows, and what happens at it.
    pub fn request(&self, t: u64, here: Step, after: u64, before: u64) -> io::Result<()> {
        let x = self.sizes.x(t);
        self.number(t, x)?;
        self.asked(x, here)?;
        self.title(here, Titled::Text)?;
        self.event(x, here, self.sizes.y(after), self.sizes.y(before))?;
        self.title(here, Titled::Mark)
    }

    // The number of a request, counted from 0 and shown from 1: of every tenth where they stand close, and then a little higher.
    fn number(&self, t: u64, x: u64) -> io::Result<()> {
        let dense = self.sizes.dense();
        let shown = t.saturating_add(1);
        if dense && shown % 10 != 0 && shown != 1 {
            return Ok(());
        }
        self.put(
            b"<text class=\"a\" x=\"@\" y=\"[70|64]\">@</text>",
            &[x, u64::from(dense), shown],
        )
    }

    // What a request asks for: R or W, and the item.
    fn asked(&self, x: u64, here: Step) -> io::Result<()> {
        let dense = self.sizes.dense();
        let left = if dense { x.saturating_add(3) } else { x };
        self.put(
            b"<text class=\"[a\" x=\"@\" y=\"88|d\" transform=\"translate(@ 106) rotate(-90)]\">[R|W] @",
            &[u64::from(dense), left, u64::from(here.write), here.item],
        )
    }

    // The request in words, at the end of a text or of a mark.
    fn title(&self, here: Step, titled: Titled) -> io::Result<()> {
        self.put(
            b"<title>request @: [read|write] of item @, cost @: \
        [hit|miss and fill|miss, pass by|write hit|write past], charge @</title></[text|use]>\n",
            &[
                here.no,
                u64::from(here.write),
                here.item,
                here.cost,
                here.word(),
                here.charge,
                titled as u64,
            ],
        )
    }

    // The mark of what happens at a request: on its item's row before it or after it, or above the rows where it passes by.
    fn event(&self, x: u64, here: Step, after: u64, before: u64) -> io::Result<()> {
        let y = match here.row {
            Row::ReadFill => after,
            Row::ReadPast | Row::WritePast => 108,
            Row::ReadHit | Row::WriteHit => before,
        };
        let middle = y.saturating_add(10);
        self.put(
            b"<use href=\"#[h|f|m|w|p]\" x=\"@\" y=\"@\">",
            &[here.word(), x, middle],
        )
    }
}

// Whether an item's number has room in a bar.
fn has_room(item: u64, width: u64) -> bool {
    let digits = decimal::count(item) as u64;
    digits.saturating_mul(7).saturating_add(14) <= width
}
