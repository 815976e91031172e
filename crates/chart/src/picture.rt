// An SVG picture of a plan. Time goes from left to right, each slot has a row, each keep is a bar; what happens at each request
// is marked on it, and the full gaps and the rents stand below. Which row a keep is drawn in is for show only; `lanes` has the
// promise that no row shows two items in one gap and that every held item has a row. The numbers are those of the schedule.
use crate::sheet::Sheet;
use crate::sizes::Sizes;
use links::Links;
use model::Requests;
use replay::Totals;
use std::io;

pub fn draw<O: Print>(out: &O, trace: &[u8], plan: &[u8], totals: Totals) -> io::Result<()> {
    let sheet = Sheet {
        out,
        sizes: Sizes::new(trace::requests(trace) as u64, trace::slots(trace) as u64),
    };
    sheet.open()?;
    sheet.names(trace::fill(trace), totals)?;
    sheet.rows()?;
    filled(&sheet, trace, plan)
}

// The gaps, the keeps, and over them the requests. The plan has passed the audit, so nothing here is refused.
fn filled<O: Print>(sheet: &Sheet<O>, trace: &[u8], plan: &[u8]) -> io::Result<()> {
    let flags = plan::flags(trace, plan);
    let mut links = Links::new();
    let mut slots = [0u8; Requests::MAX];
    let _ = links.fill(trace);
    let _ = lanes::lanes(trace, flags, &mut slots);
    let picture = Picture {
        trace,
        plan,
        flags,
        links: &links,
        slots: &slots,
    };
    picture.gaps(sheet)?;
    picture.keeps(sheet)?;
    picture.requests(sheet)?;
    sheet.put(b"</svg>\n", &[])
}

// What is drawn: a plan for a trace, with the slot row of each request.
#[derive(Clone, Copy)]
struct Picture<'a> {
    trace: &'a [u8],
    plan: &'a [u8],
    flags: &'a [u8],
    links: &'a Links,
    slots: &'a [u8],
}

impl Picture<'_> {
    // Each gap with how many items it holds, and its rent.
    fn gaps<O: Print>(&self, sheet: &Sheet<O>) -> io::Result<()> {
        for t in 0..trace::requests(self.trace) {
            if let Ok(Some(here)) = schedule::step_of(self.trace, self.plan, t) {
                sheet.gap(t as u64, here)?;
            }
        }
        Ok(())
    }

    fn keeps<O: Print>(&self, sheet: &Sheet<O>) -> io::Result<()> {
        for (t, flag) in self.flags.iter().enumerate() {
            if *flag == 1 {
                let item = trace::item(self.trace, t);
                let next = place(&self.links.next, t) as u64;
                sheet.keep(item, t as u64, next, self.row(t))?;
            }
        }
        Ok(())
    }

    fn requests<O: Print>(&self, sheet: &Sheet<O>) -> io::Result<()> {
        for t in 0..trace::requests(self.trace) {
            if let Ok(Some(here)) = schedule::step_of(self.trace, self.plan, t) {
                let before = self.row(place(&self.links.prev, t));
                sheet.request(t as u64, here, self.row(t), before)?;
            }
        }
        Ok(())
    }

    // The slot row of request t.
    fn row(&self, t: usize) -> u64 {
        self.slots.get(t).map_or(0, |row| u64::from(*row))
    }
}

// The next or previous request of request t's item: as many as there are requests for none. As one with `row` it would be handed the
// list, the conversion and the number for none, and be no plainer.
fn place(links: &[u16; Requests::MAX], t: usize) -> usize {
    links
        .get(t)
        .map_or(Requests::MAX, |place| usize::from(*place))
}
