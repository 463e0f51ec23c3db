// The watch over a stray occupation: its mark, and the seconds that still run after it.
ghost use Rattle.std.specs.Prelude.{◌≡◌, ◌%◌};
ghost use Rattle.words.specs.Words.{◌and◌};
ghost use Rattle.rulebook.specs.Place.{place, follows};
ghost use Rattle.rulebook.specs.Situation.{count_runs, with_track, with_this_watch};
ghost use Rattle.rulebook.specs.Events.{stray};
ghost use Rattle.situation.specs.Packed.{unpacked};

use super::Situation;
use super::flags::{COUNT, Flag, has_flag};
use block::event::Spot;
use block::line::{Direction, Plan};

impl Situation {
    pub fn marked(self) -> bool
        ensures { result ≡ (unpacked self).traffic.track.watch.mark }
    {
        has_flag(self.flags, Flag::Mark)
    }

    pub fn count(self) -> u8
        ensures { result ≡ (unpacked self).traffic.track.watch.count }
    {
        (self.flags / COUNT % 16) as u8
    }

    pub fn count_runs(self) -> bool
        ensures { result ≡ count_runs (unpacked self).traffic.track.watch }
    {
        self.count() != 0
    }

    // The mark stays.
    pub(crate) fn with_count(mut self, count: u8) -> Situation
        ensures { unpacked result ≡ with_track (with_this_watch (record { mark = (unpacked self).traffic.track.watch.mark; count = count % 16 }) (unpacked self).traffic.track) (unpacked self) }
    {
        let below = self.flags % COUNT;
        let above = self.flags / COUNT / 16;
        self.flags = (above * 16 + u64::from(count % 16)) * COUNT + below;
        self
    }

    pub(crate) fn with_watch(self, mark: bool, count: u8) -> Situation
        ensures { unpacked result ≡ with_track (with_this_watch (record { mark = mark; count = count % 16 }) (unpacked self).traffic.track) (unpacked self) }
    {
        self.with(Flag::Mark, mark).with_count(count)
    }

    // Unexpected, while neither station has an exit route: then only the section before is asked.
    pub(crate) fn stray(self, at: Spot) -> bool
        ensures { result ≡ stray (place at (unpacked self)) (unpacked self) }
    {
        if self.any_exit_route() {
            return false;
        }
        let way = self.own().area_direction();
        let leaves = self.comes(way.out, at.plan, at.section, at.own.away());
        let arrives = self.comes(way.inward, at.plan, at.section, at.own.toward());
        !(leaves | arrives)
    }

    // A train comes this way: the area has the direction, and the section before is occupied.
    fn comes(self, way: bool, plan: Plan, k: u8, d: Direction) -> bool
        ensures { result ≡ (way and follows plan (unpacked self) k d) }
    {
        way && self.follows(plan, k, d)
    }
}
