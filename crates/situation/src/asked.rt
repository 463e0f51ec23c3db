// What is asked of a situation.
ghost use Rattle.std.specs.Prelude.{◌≡◌};
ghost use Rattle.rulebook.specs.Situation.{any_exit_route, track_free, line_free, one_out_one_in, turned_round, seen_from, held, station as Block·station};
ghost use Rattle.rulebook.specs.Place.{held_in_area};
ghost use Rattle.situation.specs.Packed.{station, unpacked};

use super::flags::{Flag, exchanged, has_flag};
use super::{Situation, Station};
use block::line::{Direction, Name, Plan};
use sections::either;

// Own and the other have a method each, as the rules speak of them: a parameter would be a word less.
impl Situation {
    pub fn linked(self) -> bool
        ensures { result ≡ (unpacked self).traffic.link }
    {
        has_flag(self.flags, Flag::Link)
    }

    #[tactic(auto, unfolding(crate::specs::Packed::station))]
    pub fn own(self) -> Station
        ensures { station result ≡ (unpacked self).traffic.own }
    {
        Station { flags: self.flags }
    }

    #[tactic(auto, using(crate::proofs::Exchanged::others_flags), unfolding(crate::specs::Packed::station))]
    pub fn other(self) -> Station
        ensures { station result ≡ (unpacked self).traffic.other }
    {
        Station {
            flags: self.flags >> 16,
        }
    }

    // Of a situation as it is kept.
    pub fn station(self, s: Name) -> Station
        ensures { station result ≡ Block·station (unpacked self) s }
    {
        match s {
            Name::StationA => self.own(),
            Name::StationB => self.other(),
        }
    }

    // Own's SOBB is pending.
    pub fn asks(self) -> bool
        ensures { result ≡ (unpacked self).traffic.pending.own }
    {
        has_flag(self.flags, Flag::Asks)
    }

    pub fn other_asks(self) -> bool
        ensures { result ≡ (unpacked self).traffic.pending.other }
    {
        has_flag(self.flags, Flag::OtherAsks)
    }

    // No section is occupied, and no count runs.
    pub fn track_free(self) -> bool
        ensures { result ≡ track_free (unpacked self).traffic.track }
    {
        (self.occupied == 0) & !self.count_runs()
    }

    pub fn any_exit_route(self) -> bool
        ensures { result ≡ any_exit_route (unpacked self) }
    {
        self.own().routed() | self.other().routed()
    }

    // The flags are asked together.
    pub fn line_free(self) -> bool
        ensures { result ≡ line_free (unpacked self) }
    {
        let flags_allow = self.linked() & !self.count_runs() & !self.any_exit_route();
        (self.occupied == 0) & flags_allow
    }

    pub fn one_out_one_in(self) -> bool
        ensures { result ≡ one_out_one_in (unpacked self) }
    {
        let own = self.own();
        let other = self.other();
        (own.is_out() & other.is_in()) | (own.is_in() & other.is_out())
    }

    pub fn held(self, d: Direction) -> u64
        ensures { result ≡ held (unpacked self) d }
    {
        match d {
            Direction::TowardsA => self.signals.helda,
            Direction::TowardsB => self.signals.heldb,
        }
    }

    // BSLB holds a signal of either direction whose section is in the area of s.
    pub fn held_in_area(self, plan: Plan, s: Name) -> bool
        ensures { result ≡ held_in_area plan s (unpacked self) }
    {
        let towardsb = self.held(Direction::TowardsB);
        let towardsa = self.held(Direction::TowardsA);
        plan.some_in_area(s, either(towardsb, towardsa))
    }

    // The same situation as the other station sees it.
    fn turned_round(mut self) -> Situation
        ensures { unpacked result ≡ turned_round (unpacked self) }
    {
        self.flags = exchanged(self.flags);
        self
    }

    pub fn seen_from(self, s: Name) -> Situation
        ensures { unpacked result ≡ seen_from s (unpacked self) }
    {
        match s {
            Name::StationA => self,
            Name::StationB => self.turned_round(),
        }
    }
}
