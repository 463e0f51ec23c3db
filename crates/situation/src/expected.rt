// Whether section k becoming occupied is expected. The situation is as k's owner s sees it: own is s.
ghost use Rattle.std.specs.Prelude.{◌≡◌};
ghost use Rattle.rulebook.specs.Place.{follows, expected_out, expected_in, expected};
ghost use Rattle.situation.specs.Packed.{unpacked};

use super::Situation;
use block::line::{Direction, Name, Plan};
use sections::has;

impl Situation {
    // The section before k is occupied; across the frontier that counts only with link up.
    pub(crate) fn follows(self, plan: Plan, k: u8, d: Direction) -> bool
        ensures { result ≡ follows plan (unpacked self) k d }
    {
        let before = d.before(k);
        let occupied = has(self.occupied, before);
        let across = plan.across_frontier(before, u16::from(k));
        occupied & (self.linked() | !across)
    }

    fn expected_out(self, plan: Plan, s: Name, k: u8) -> bool
        ensures { result ≡ expected_out plan s k (unpacked self) }
    {
        let first = plan.is_first(s, u16::from(k));
        (first & self.own().routed()) | self.follows(plan, k, s.away())
    }

    fn expected_in(self, plan: Plan, s: Name, k: u8) -> bool
        ensures { result ≡ expected_in plan s k (unpacked self) }
    {
        let first = plan.is_first(s.opposite(), u16::from(k));
        (first & self.other().routed()) | self.follows(plan, k, s.toward())
    }

    // Own's area has a direction, and trains come that way.
    pub(crate) fn expected(self, plan: Plan, s: Name, k: u8) -> bool
        ensures { result ≡ expected plan s k (unpacked self) }
    {
        let way = self.own().area_direction();
        let leaves = self.expected_out(plan, s, k);
        let arrives = self.expected_in(plan, s, k);
        (way.out & leaves) | (way.inward & arrives)
    }
}
