// Where an accepted event leads, own being the station that the event names: a method for each event code, and the next situation, whole.
ghost use Rattle.std.specs.Prelude.{◌≡◌};
ghost use Rattle.sections.specs.Sections.{◌with_section◌};
ghost use Rattle.rulebook.specs.Situation.{with_track};
ghost use Rattle.rulebook.specs.Place.{place};
ghost use Rattle.rulebook.specs.Events.{annul, exit, watch_taken, taken};
ghost use Rattle.rulebook.specs.Table.{Sobb, Cobb, Afbli, Afble, Dafbl, Bilc, Dilc, Bslg, BslgOff, Bslb, BslbOff, Reminder, ReminderOff, ExitNormal, ExitSpecial, ExitReleased, Entry, EntryReleased, Occupied, Freed, LinkLost, LinkRestored, Second};
ghost use Rattle.rulebook.specs.Apply.{leads};
ghost use Rattle.situation.specs.Packed.{unpacked};

use super::Situation;
use super::flags::Flag;
use block::codes::{Annulment, Orientation, Pending, Route};
use block::event::Spot;
use sections::{with_section, without_section};

const NONE: Orientation = Orientation {
    out: false,
    inward: false,
};

const OUT: Orientation = Orientation {
    out: true,
    inward: false,
};

const IN: Orientation = Orientation {
    out: false,
    inward: true,
};

const NO_ANNULMENT: Annulment = Annulment {
    afbli: false,
    afble: false,
};

const AFBLI: Annulment = Annulment {
    afbli: true,
    afble: false,
};

const AFBLE: Annulment = Annulment {
    afbli: false,
    afble: true,
};

const NO_ROUTE: Route = Route {
    normal: false,
    special: false,
};

const NORMAL: Route = Route {
    normal: true,
    special: false,
};

const SPECIAL: Route = Route {
    normal: false,
    special: true,
};

const OWN_SOBB: Pending = Pending {
    own: true,
    other: false,
};

// Also where two events differ in one value, as BILC and DILC, each has its method; each takes the spot, as each row of the table does.
impl Situation {
    pub fn sobb(mut self, at: Spot) -> Situation
        ensures { unpacked result ≡ leads Sobb at (unpacked self) }
    {
        self.with_pending(OWN_SOBB)
    }

    pub fn cobb(mut self, at: Spot) -> Situation
        ensures { unpacked result ≡ leads Cobb at (unpacked self) }
    {
        self.reoriented(IN, OUT).settled(false, self)
    }

    // Own orientation becomes none; with link up the other's too.
    fn annul(self, at: Spot, annulment: Annulment) -> Situation
        ensures { unpacked result ≡ annul (place at (unpacked self)) (unpacked self) annulment }
    {
        let next = self.annulled_by(annulment);
        if self.linked() {
            return next.reoriented(NONE, NONE);
        }
        next.becomes(NONE)
    }

    pub fn afbli(mut self, at: Spot) -> Situation
        ensures { unpacked result ≡ leads Afbli at (unpacked self) }
    {
        self.annul(at, AFBLI).settled(true, self)
    }

    pub fn afble(mut self, at: Spot) -> Situation
        ensures { unpacked result ≡ leads Afble at (unpacked self) }
    {
        self.annul(at, AFBLE).settled(true, self)
    }

    pub fn dafbl(mut self, at: Spot) -> Situation
        ensures { unpacked result ≡ leads Dafbl at (unpacked self) }
    {
        self.annulled_by(NO_ANNULMENT)
    }

    pub fn bilc(mut self, at: Spot) -> Situation
        ensures { unpacked result ≡ leads Bilc at (unpacked self) }
    {
        self.with(Flag::Bilc, true)
    }

    pub fn dilc(mut self, at: Spot) -> Situation
        ensures { unpacked result ≡ leads Dilc at (unpacked self) }
    {
        self.with(Flag::Bilc, false)
    }

    pub fn bslg(mut self, at: Spot) -> Situation
        ensures { unpacked result ≡ leads Bslg at (unpacked self) }
    {
        self.with(Flag::Bslg, true)
    }

    pub fn bslg_off(mut self, at: Spot) -> Situation
        ensures { unpacked result ≡ leads BslgOff at (unpacked self) }
    {
        self.with(Flag::Bslg, false)
    }

    pub fn bslb(mut self, at: Spot) -> Situation
        ensures { unpacked result ≡ leads Bslb at (unpacked self) }
    {
        let held = self.held(at.direction);
        self.with_held(at.direction, with_section(held, at.section))
    }

    pub fn bslb_off(mut self, at: Spot) -> Situation
        ensures { unpacked result ≡ leads BslbOff at (unpacked self) }
    {
        let held = self.held(at.direction);
        self.with_held(at.direction, without_section(held, at.section))
    }

    pub fn reminder(mut self, at: Spot) -> Situation
        ensures { unpacked result ≡ leads Reminder at (unpacked self) }
    {
        self.with(Flag::Reminder, true)
    }

    pub fn reminder_off(mut self, at: Spot) -> Situation
        ensures { unpacked result ≡ leads ReminderOff at (unpacked self) }
    {
        self.with(Flag::Reminder, false)
    }

    // If own is in, own becomes out and the other in. With AFBLE no orientation is written. Mark and count are cleared.
    fn exit(self, at: Spot, route: Route) -> Situation
        ensures { unpacked result ≡ exit (place at (unpacked self)) (unpacked self) route }
    {
        let next = self.with_watch(false, 0).with_exit(route);
        let own = self.own();
        if own.is_in() & !own.under_afble() {
            return next.reoriented(OUT, IN);
        }
        next
    }

    pub fn exit_normal(mut self, at: Spot) -> Situation
        ensures { unpacked result ≡ leads ExitNormal at (unpacked self) }
    {
        self.exit(at, NORMAL).settled(false, self)
    }

    pub fn exit_special(mut self, at: Spot) -> Situation
        ensures { unpacked result ≡ leads ExitSpecial at (unpacked self) }
    {
        self.exit(at, SPECIAL).settled(false, self)
    }

    pub fn exit_released(mut self, at: Spot) -> Situation
        ensures { unpacked result ≡ leads ExitReleased at (unpacked self) }
    {
        self.with_exit(NO_ROUTE)
    }

    pub fn entry(mut self, at: Spot) -> Situation
        ensures { unpacked result ≡ leads Entry at (unpacked self) }
    {
        self.with(Flag::Entry, true)
    }

    pub fn entry_released(mut self, at: Spot) -> Situation
        ensures { unpacked result ≡ leads EntryReleased at (unpacked self) }
    {
        self.with(Flag::Entry, false)
    }

    // The section is occupied. The count goes to 0; a mark stays, and is set by a stray occupation.
    fn watched(self, at: Spot) -> Situation
        ensures { unpacked result ≡ with_track (record { occupied = (unpacked self).traffic.track.occupied with_section at.section; watch = watch_taken (place at (unpacked self)) (unpacked self) }) (unpacked self) }
    {
        let next = self.with_occupied(with_section(self.occupied, at.section));
        if self.marked() {
            return next.with_count(0);
        }
        next.with_watch(self.stray(at), 0)
    }

    // The section is occupied. Unexpected, own's annulment goes, but for AFBLE on own's first section.
    fn taken(self, at: Spot) -> Situation
        ensures { unpacked result ≡ taken (place at (unpacked self)) (unpacked self) }
    {
        let own = self.own();
        let next = self.watched(at);
        if !own.annulled() {
            return next;
        }
        let first = at.plan.is_first(at.own, u16::from(at.section));
        if own.under_afble() & first {
            return next;
        }
        if self.expected(at.plan, at.own, at.section) {
            return next;
        }
        next.annulled_by(NO_ANNULMENT)
    }

    // If the section is own's first, own is in, and the line was free, own becomes out and the other in.
    pub fn occupied(mut self, at: Spot) -> Situation
        ensures { unpacked result ≡ leads Occupied at (unpacked self) }
    {
        let next = self.taken(at).settled(true, self);
        let first = at.plan.is_first(at.own, u16::from(at.section));
        if first && self.own().is_in() & self.line_free() {
            return next.reoriented(OUT, IN);
        }
        next
    }

    // When the last section clears with the mark set and no exit route set, a count of 10 starts.
    pub fn freed(mut self, at: Spot) -> Situation
        ensures { unpacked result ≡ leads Freed at (unpacked self) }
    {
        let left = without_section(self.occupied, at.section);
        let next = self.with_occupied(left);
        if !self.marked() {
            return next;
        }
        let starts = (left == 0) & !self.any_exit_route();
        if starts {
            return next.with_watch(true, 10);
        }
        next
    }

    pub fn link_lost(mut self, at: Spot) -> Situation
        ensures { unpacked result ≡ leads LinkLost at (unpacked self) }
    {
        self.with(Flag::Link, false).settled(true, self)
    }

    pub fn link_restored(mut self, at: Spot) -> Situation
        ensures { unpacked result ≡ leads LinkRestored at (unpacked self) }
    {
        let next = self.with(Flag::Link, true);
        if self.one_out_one_in() {
            return next;
        }
        next.reoriented(NONE, NONE).settled(false, self)
    }

    // Each second lowers the count; when that brings it to 0 the mark goes; with no count running a second changes nothing.
    pub fn second(mut self, at: Spot) -> Situation
        ensures { unpacked result ≡ leads Second at (unpacked self) }
    {
        let count = self.count();
        if count == 0 {
            return self;
        }
        let mark = self.marked() & (count != 1);
        self.with_watch(mark, count - 1)
    }
}
