// The rows, given request by request: an item keeps its row while it is held, and a fill takes the first that is free.
// Numbers are narrowed by `as`: that nothing is lost is proved, and `try_from` would make a Result that is never an Err.
ghost use Rattle.std.specs.Prelude.{◌≡◌, ◌==◌, position};
ghost use Rattle.lanes.specs.Steps.{Ready, Turn, place_by, Laying};

use model::Slots;
use replay::kept::Kept;

// The first row that is free, if there is one. A row's mark is 1 or 0 and no bool, since `Chart` of the specs has numbers.
fn free(busy: &[u8]) -> Option<usize>
    ensures { result ≡ position (λ mark. mark == 0) busy.now }
{
    busy.iter().position(|mark| *mark == 0)
}

// The row of request t's item: its old one where it was held before, else the first that is free.
fn place(kept: &Kept<'_>, busy: &[u8], rows: &[u8], t: usize) -> usize
    requires { Turn kept.now.flags.now rows.now t }
    ensures { result ≡ place_by kept.now.flags.now kept.now.links.now.prev busy.now rows.now t }
{
    if kept.held(t) {
        usize::from(rows[usize::from(kept.links.prev[t])])
    } else {
        free(busy).unwrap_or(busy.len())
    }
}

// The row of each request, and 0 where its item is not kept: `Laned` has numbers, and no `None`. There is one row more than there can
// be slots, so that one is always free.
pub fn draw(trace: &[u8], kept: &Kept<'_>, rows: &mut [u8])
    requires { Ready trace.now kept.now.flags.now kept.now.links.now.prev rows.old }
    ensures { Laying trace.now kept.now.flags.now rows.old rows.new }
{
    let mut busy = [0u8; Slots::MAX + 1];
    for t in 0..kept.flags.len() {
        let here = place(kept, &busy, rows, t);
        let after = kept.flag(t);
        busy[here] = u8::from(after);
        rows[t] = if after { here as u8 } else { 0 };
    }
}
