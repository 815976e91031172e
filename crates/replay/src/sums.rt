// What each request pays, and the totals.
ghost use Rattle.std.specs.Prelude.{◌≡◌};
ghost use Rattle.trace.specs.TraceFile.{rules_in, request_in, trace_in};
ghost use Rattle.replay.specs.Replay.{totals_of};
ghost use Rattle.replay.specs.Linked.{flag_at, held_by, paid};

use crate::rows::Sound;
use crate::{Totals, paid_of, row_of};

impl Sound<'_, '_> {
    // The totals of the flags.
    pub fn totals(&self) -> Totals
        ensures { result ≡ totals_of (trace_in self.now.trace.now) self.now.kept.flags.now }
    {
        let mut sum = Totals::default();
        for t in 0..self.kept.flags.len() {
            let paid = self.paid(t);
            sum.total += paid.total;
            sum.misses += paid.misses;
            sum.fills += paid.fills;
            sum.strikes += paid.strikes;
        }
        sum
    }

    // What request t pays and counts for: the table of charges.
    fn paid(&self, t: usize) -> Totals
        ensures { result ≡ paid (rules_in self.now.trace.now) (request_in self.now.trace.now t) (held_by self.now.kept.flags.now self.now.kept.links.now.prev t) (flag_at self.now.kept.flags.now t) }
    {
        let write = trace::is_write(self.trace, t);
        let row = row_of(write, self.kept.held(t), self.kept.flag(t));
        // `paid_of` takes numbers of 32 bits, so that their sum fits; these two were read from four bytes.
        let cost = trace::cost(self.trace, t) as u32;
        let fill = trace::fill(self.trace) as u32;
        paid_of(row, cost, fill)
    }
}
