// What is asked of a station.
ghost use Rattle.std.specs.Prelude.{◌≡◌};
ghost use Rattle.rulebook.specs.Situation.{◌is_out, ◌is_in, ◌under_AFBLI, ◌under_AFBLE, ◌annulled, ◌has_exit_route, area_direction};
ghost use Rattle.situation.specs.Packed.{station};

use super::Station;
use super::flags::{Flag, has_flag};
use block::codes::{Annulment, Orientation, Route};

// A method for each word of the document, over its flags: a flag's name in their place would say less.
#[tactic(auto, unfolding(crate::specs::Packed::station))]
impl Station {
    pub fn is_out(self) -> bool
        ensures { result ≡ (station self is_out) }
    {
        has_flag(self.flags, Flag::Out)
    }

    pub fn is_in(self) -> bool
        ensures { result ≡ (station self is_in) }
    {
        has_flag(self.flags, Flag::Inward)
    }

    pub fn under_afbli(self) -> bool
        ensures { result ≡ (station self under_AFBLI) }
    {
        has_flag(self.flags, Flag::Afbli)
    }

    pub fn under_afble(self) -> bool
        ensures { result ≡ (station self under_AFBLE) }
    {
        has_flag(self.flags, Flag::Afble)
    }

    pub fn annulled(self) -> bool
        ensures { result ≡ (station self annulled) }
    {
        has_flag(self.flags, Flag::Afbli) | has_flag(self.flags, Flag::Afble)
    }

    pub fn routed(self) -> bool
        ensures { result ≡ (station self has_exit_route) }
    {
        has_flag(self.flags, Flag::Normal) | has_flag(self.flags, Flag::Special)
    }

    pub fn has_entry(self) -> bool
        ensures { result ≡ (station self).entry }
    {
        has_flag(self.flags, Flag::Entry)
    }

    pub fn has_bilc(self) -> bool
        ensures { result ≡ (station self).bilc }
    {
        has_flag(self.flags, Flag::Bilc)
    }

    pub fn has_bslg(self) -> bool
        ensures { result ≡ (station self).bslg }
    {
        has_flag(self.flags, Flag::Bslg)
    }

    pub fn has_reminder(self) -> bool
        ensures { result ≡ (station self).reminder }
    {
        has_flag(self.flags, Flag::Reminder)
    }

    pub fn orientation(self) -> Orientation
        ensures { result ≡ (station self).orientation }
    {
        Orientation {
            out: self.is_out(),
            inward: self.is_in(),
        }
    }

    pub fn annulment(self) -> Annulment
        ensures { result ≡ (station self).annulment }
    {
        Annulment {
            afbli: self.under_afbli(),
            afble: self.under_afble(),
        }
    }

    pub fn exit_route(self) -> Route
        ensures { result ≡ (station self).exit }
    {
        Route {
            normal: has_flag(self.flags, Flag::Normal),
            special: has_flag(self.flags, Flag::Special),
        }
    }

    // Out under AFBLE, in under AFBLI, else its orientation.
    pub fn area_direction(self) -> Orientation
        ensures { result ≡ area_direction (station self) }
    {
        let afbli = self.under_afbli();
        let afble = self.under_afble();
        let way = self.orientation();
        Orientation {
            out: afble | (!afbli & way.out),
            inward: !afble & (afbli | way.inward),
        }
    }
}
