// One slot after the other.
// Numbers are narrowed by `as`: that nothing is lost is proved, and `try_from` would make a Result that is never an Err.
ghost use Rattle.std.specs.Prelude.{suc, ◌≤◌, ◌<◌};
ghost use Rattle.steps.specs.Slots.{Laid, Cheap};

use crate::search::{Ways, fresh, shortest};
use crate::walk::walk;
use frontier::Frontier;
use model::Requests;
use trace::Header;
use ways::lengths;
use worths::raise;

// What the slots are laid on: a trace, what its header says, where the ways of its network come from, and what its requests pay. The
// trace is not read here: the contracts speak of it.
#[derive(Drop)]
pub struct Lists<'a> {
    pub trace: &'a [u8],
    pub header: Header,
    pub from: &'a [u16; ways::PLACES],
    pub charges: &'a [u32; Requests::MAX],
}

// The slots that are laid: the worths of points and requests, and the flags that fit together with them. `Laid` is no field of it: it
// speaks of the lists as well, and of how many slots are laid, which `more` raises.
#[derive(Drop)]
pub struct Slots {
    pub worth: [u32; worths::PLACES],
    pub flags: [u8; Requests::MAX],
}

impl Slots {
    // One slot more. The lengths of the ways are told anew.
    fn more(
        &mut self,
        lists: &Lists<'_>,
        len: &mut [u32; ways::PLACES],
        search: &mut Frontier,
        k: u8,
    )
        requires { Laid lists.now.trace.now lists.now.header.requests lists.now.header.fill k self.old.worth self.old.flags lists.now.from.now lists.now.charges.now × (k < 64) }
        ensures { Laid lists.now.trace.now lists.now.header.requests lists.now.header.fill (suc k) self.new.worth self.new.flags lists.now.from.now lists.now.charges.now }
    {
        let n = lists.header.requests;
        let fill = lists.header.fill as u32;
        lengths(
            n,
            fill,
            k,
            lists.from,
            lists.charges,
            &self.flags,
            &self.worth,
            len,
        );
        let ways = Ways {
            n,
            from: lists.from,
            len,
        };
        shortest(&ways, search);
        raise(
            &search.dist,
            2 * n + 1,
            u64::from(search.dist[0]),
            &mut self.worth,
        );
        walk(lists, &self.worth, &mut self.flags, &search.hop, k);
    }

    // Lays slots until there are w, or until one more would save nothing.
    pub fn lay(&mut self, lists: &Lists<'_>, w: u8)
        requires { Laid lists.now.trace.now lists.now.header.requests lists.now.header.fill 0 self.old.worth self.old.flags lists.now.from.now lists.now.charges.now × Cheap lists.now.header.requests self.old.worth × (w ≤ 64) }
        ensures { Laid lists.now.trace.now lists.now.header.requests lists.now.header.fill w self.new.worth self.new.flags lists.now.from.now lists.now.charges.now × Cheap lists.now.header.requests self.new.worth }
    {
        let mut len = [1u32; ways::PLACES];
        // It is made here, and of zeros: a search that is handed out is copied, and lists whose bytes differ are made beside it first. The
        // stack is too short for that.
        let mut search = Frontier {
            top: 0,
            waiting: 0,
            dist: fresh(),
            hop: [0; Frontier::MAX],
            stack: [0; Frontier::MAX],
            list: [0; Frontier::MAX],
        };
        for k in 0..w {
            if self.worth[0] == self.worth[lists.header.requests] {
                return;
            }
            self.more(lists, &mut len, &mut search, k);
        }
    }
}
