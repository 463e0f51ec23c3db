// A situation with one thing changed.
ghost use Rattle.std.specs.Prelude.{◌≡◌};
ghost use Rattle.rulebook.specs.Situation.{◌becomes◌, ◌annulled_by◌, ◌with_exit◌, with_own_station, with_pending, with_track, with_occupied, with_held, reoriented};
ghost use Rattle.situation.specs.Packed.{set, unpacked};

use super::flags::{Flag, flagged};
use super::{Signals, Situation};
use block::codes::{Annulment, Orientation, Pending, Route};
use block::line::Direction;

impl Situation {
    // One flag set or cleared.
    pub(crate) fn with(mut self, flag: Flag, v: bool) -> Situation
        ensures { unpacked result ≡ set flag v (unpacked self) }
    {
        self.flags = flagged(self.flags, flag, v);
        self
    }

    pub(crate) fn with_occupied(mut self, m: u64) -> Situation
        ensures { unpacked result ≡ with_track (with_occupied m (unpacked self).traffic.track) (unpacked self) }
    {
        self.occupied = m;
        self
    }

    pub(crate) fn with_held(mut self, d: Direction, m: u64) -> Situation
        ensures { unpacked result ≡ with_held d m (unpacked self) }
    {
        let Signals { heldb, helda } = self.signals;
        self.signals = match d {
            Direction::TowardsA => Signals { heldb, helda: m },
            Direction::TowardsB => Signals { heldb: m, helda },
        };
        self
    }

    // Own becomes this.
    pub(crate) fn becomes(self, o: Orientation) -> Situation
        ensures { unpacked result ≡ with_own_station ((unpacked self).traffic.own becomes o) (unpacked self) }
    {
        self.with(Flag::Out, o.out).with(Flag::Inward, o.inward)
    }

    // Own and the other become these.
    pub(crate) fn reoriented(self, o: Orientation, p: Orientation) -> Situation
        ensures { unpacked result ≡ reoriented o p (unpacked self) }
    {
        self.becomes(o)
            .with(Flag::OtherOut, p.out)
            .with(Flag::OtherInward, p.inward)
    }

    pub(crate) fn annulled_by(self, a: Annulment) -> Situation
        ensures { unpacked result ≡ with_own_station ((unpacked self).traffic.own annulled_by a) (unpacked self) }
    {
        self.with(Flag::Afbli, a.afbli).with(Flag::Afble, a.afble)
    }

    pub(crate) fn with_exit(self, r: Route) -> Situation
        ensures { unpacked result ≡ with_own_station ((unpacked self).traffic.own with_exit r) (unpacked self) }
    {
        self.with(Flag::Normal, r.normal)
            .with(Flag::Special, r.special)
    }

    pub(crate) fn with_pending(self, p: Pending) -> Situation
        ensures { unpacked result ≡ with_pending p (unpacked self) }
    {
        self.with(Flag::Asks, p.own).with(Flag::OtherAsks, p.other)
    }
}
