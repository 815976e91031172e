// Rows 13, 14 and 15, each over the whole input.
ghost use Rattle.std.specs.Prelude.{◌≡◌};
ghost use Rattle.model.specs.Refusals.{said};
ghost use Rattle.trace.specs.TraceFile.{trace_in};
ghost use Rattle.replay.specs.Replay.{values_tried, flags_tried};
ghost use Rattle.replay.specs.Linked.{stray_by, Forward, stands_of, room_of};

use crate::kept::Kept;
use model::Refusal;

// Flags on a sound trace: one for each of its requests, beside the trace's links.
#[derive(Clone, Copy)]
pub struct Sound<'a, 'b> {
    pub trace: &'a [u8],
    pub kept: Kept<'b>,
    ghost linked: { Forward trace.now kept.flags.now kept.links.now.next kept.links.now.prev },
}

impl Sound<'_, '_> {
    // Rows 13, 14 and 15, one after the other.
    #[tactic(auto, unfolding(crate::specs::Replay::flags_tried))]
    pub fn tried(&self) -> Result<(), Refusal>
        ensures { said result ≡ flags_tried (trace_in self.now.trace.now) self.now.kept.flags.now }
    {
        self.values()?;
        self.stands()?;
        self.room()
    }

    // Row 13: every flag is 0 or 1.
    fn values(&self) -> Result<(), Refusal>
        ensures { said result ≡ values_tried 0 self.now.kept.flags.now }
    {
        for (t, flag) in self.kept.flags.iter().enumerate() {
            if 1 < *flag {
                return Err(Refusal::FlagValue(t as u64 + 1));
            }
        }
        Ok(())
    }

    // Row 14: every flag 1 stands where it may.
    fn stands(&self) -> Result<(), Refusal>
        ensures { said result ≡ stands_of self.now.trace.now self.now.kept.flags.now }
    {
        for t in 0..self.kept.flags.len() {
            if self.stray(t) {
                return Err(Refusal::FlagPlace(t as u64 + 1));
            }
        }
        Ok(())
    }

    // Row 15: no gap holds more items than there are slots. A kept item is counted in every gap of the keep. Schedule's `within` counts so
    // too, but answers the count of one gap, where this answers the first gap that is crowded.
    fn room(&self) -> Result<(), Refusal>
        ensures { said result ≡ room_of self.now.trace.now self.now.kept.flags.now }
    {
        let slots = trace::slots(self.trace);
        let mut within: usize = 0;
        for t in 0..self.kept.flags.len() {
            within = within + usize::from(self.kept.flag(t)) - usize::from(self.kept.held(t));
            if slots < within {
                return Err(Refusal::Crowded(t as u64 + 1));
            }
        }
        Ok(())
    }

    // Whether flag t is 1 where it may not be: at an item's last request, or at a write of an item not held.
    fn stray(&self, t: usize) -> bool
        ensures { result ≡ stray_by self.now.trace.now self.now.kept.flags.now self.now.kept.links.now.next self.now.kept.links.now.prev t }
    {
        let next = self.kept.links.next.get(t).copied().unwrap_or(0);
        let again = usize::from(next) < self.kept.flags.len();
        self.kept.flag(t) && !(again && (self.kept.held(t) || !trace::is_write(self.trace, t)))
    }
}
