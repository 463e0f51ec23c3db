// Pending is cleared by any orientation change, any accepted AFBLI or AFBLE, any section becoming occupied, and link loss.
ghost use Rattle.std.specs.Prelude.{◌≡◌};
ghost use Rattle.rulebook.specs.Pending.{orientation_change, pending_settled};
ghost use Rattle.situation.specs.Packed.{unpacked};

use super::Situation;
use block::codes::Pending;

const NOBODY: Pending = Pending {
    own: false,
    other: false,
};

impl Situation {
    fn orientation_change(self, next: Situation) -> bool
        ensures { result ≡ orientation_change (unpacked self) (unpacked next) }
    {
        let own = self.own().orientation() != next.own().orientation();
        let other = self.other().orientation() != next.other().orientation();
        own | other
    }

    // Self, where an event leads from `before`; `always` says that the event clears pending by itself.
    pub(crate) fn settled(self, always: bool, before: Situation) -> Situation
        ensures { unpacked result ≡ pending_settled always (unpacked before) (unpacked self) }
    {
        if always | before.orientation_change(self) {
            return self.with_pending(NOBODY);
        }
        self
    }
}
