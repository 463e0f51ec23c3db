// A candidate's run.
ghost use Rattle.std.specs.Prelude.{◌≡◌, ◌≤◌, length, true};
ghost use Rattle.keylaws.specs.Key.{Permitted};
ghost use Rattle.keylaws.specs.Run.{run};
ghost use Rattle.records.specs.InBytes.{events_in, readings_in};
ghost use Rattle.rules.specs.RulesOf.{rules_of, name_told};
ghost use Rattle.situation.specs.Packed.{unpacked};
ghost use Rattle.block.specs.Line.{is_plan};
ghost use Rattle.rules.specs.Judged.{all_right};
ghost use Rattle.rules.specs.Told.{outcome, named};

use super::wanted::{all_hold, wanted_of};
use block::line::Plan;
use block::refused::Refusal;
use events::{name_of, next, own_refusal};
use records::lists::event_at;
use situation::Situation;

// Where a run stops: the place of the refused event within the slot, from 1, its refusal and what that names, a number as the interface hands it on.
#[derive(Clone, Copy, Debug, PartialEq, Eq)]
pub struct Stopped {
    pub place: u8,
    pub refusal: Refusal,
    pub name: u8,
}

// Whether all readings hold after the events of these places, or where the first one of them is refused.
pub fn run_places(
    plan: Plan,
    start: Situation,
    events: &[u8],
    readings: &[u8],
    places: &[u8],
) -> Result<bool, Stopped>
    requires places_len_bound { (length places.now ≤ 5) × Permitted (length (events_in events.now)) places.now }
    requires events_value { (all_right plan (events_in events.now) ≡ true) × (is_plan plan ≡ true) }
    ensures result_value { outcome result ≡ run (rules_of plan (events_in events.now) (readings_in readings.now)) (unpacked start) places.now }
    ensures name_value { named result ≡ name_told plan (events_in events.now) (unpacked start) places.now }
{
    let mut x = start;
    let mut i = 0;
    // `loop`, not `for`: the loop itself yields by `break` what is told (docs/PROMISES.md, "What shape each place takes").
    loop {
        if i == places.len() {
            break Ok(all_hold(plan, wanted_of(readings), x, readings));
        }
        let event = event_at(events, usize::from(places[i]));
        if let Err(refusal) = own_refusal(plan, x, event) {
            break Err(Stopped {
                place: (i + 1) as u8,
                refusal,
                name: name_of(plan, x, event, u8::from(refusal)),
            });
        }
        x = next(plan, x, event);
        i += 1;
    }
}
