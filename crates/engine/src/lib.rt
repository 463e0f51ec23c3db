// A part of a key, written into lent room.
#![tactic(auto)]

mod ask;

ghost use Rattle.std.specs.Prelude.{◌≡◌, true, ◌≤◌, length};
ghost use Rattle.keylaws.specs.Continuation.{is_continuation};
ghost use Rattle.keylaws.specs.Parts.{handed, part_after};
ghost use Rattle.situation.specs.Packed.{unpacked};
ghost use Rattle.block.specs.Line.{is_plan};
ghost use Rattle.records.specs.InBytes.{events_in, readings_in};
ghost use Rattle.rules.specs.RulesOf.{rules_of};
ghost use Rattle.rules.specs.Judged.{all_right};

pub use ask::{Ask, Node, Start};
use block::line::Plan;
use rules::wanted::wanted_of;
use situation::Situation;
use slots::form::FROM_START;
use slots::room::Part;

// A part of the key: the slots that come after the continuation, as many as the room holds or remain.
pub fn key_part(
    start: Situation,
    limit: usize,
    plan: Plan,
    from: [u8; 6],
    events: &[u8],
    readings: &[u8],
    room: &mut [u8],
) -> Part
    requires events_len_bound { (length events.now ≤ 24) × (limit ≤ 5) }
    requires from_value { is_continuation (length (events_in events.now)) limit from ≡ true }
    requires events_value { (all_right plan (events_in events.now) ≡ true) × (is_plan plan ≡ true) }
    ensures { handed room.new result.count result.more ≡ part_after (rules_of plan (events_in events.now) (readings_in readings.now)) limit (unpacked start) from room.old }
{
    let root = Node {
        slot: [0u8; 6],
        depth: 0,
        left: limit,
        on: from[0] != FROM_START,
        count: 0,
    };
    let ask = Ask {
        plan,
        from,
        events,
        readings,
        wanted: wanted_of(readings),
    };
    ask.explore(start, root, room)
}
