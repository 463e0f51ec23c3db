// What a refusal names: a section or a station.
#![tactic(auto)]

ghost use Rattle.std.specs.Prelude.{◌≡◌};
ghost use Rattle.rulebook.specs.Names.{lowest_occupied, route_holder};
ghost use Rattle.situation.specs.Packed.{unpacked};

use block::line::{Name, Plan};
use sections::has;
use situation::Situation;

// The lowest occupied section of the line; 0 if there is none, and no Option: the document names 0 then.
pub fn lowest_occupied(plan: Plan, x: Situation) -> u8
    ensures { result ≡ lowest_occupied plan (unpacked x) }
{
    let n = plan.sections;
    let occupied = x.occupied;
    for k in 1..=n {
        if has(occupied, k as u16) {
            return k;
        }
    }
    0
}

// The station that holds the exit route: A first where any is checked, else own. The situation is as it is kept.
pub fn route_holder(x: Situation, any: bool, own: Name) -> Name
    ensures { result ≡ route_holder (unpacked x) any own }
{
    if !any {
        return own;
    }
    let first = x.station(Name::StationA);
    if first.routed() {
        return Name::StationA;
    }
    Name::StationB
}
