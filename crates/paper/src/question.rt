// A question that is accepted, its lists where they lie in its bytes.
ghost use Rattle.std.specs.Prelude.{◌≡◌, ◌*◌, length as size};
ghost use Rattle.records.specs.InBytes.{events_in, readings_in};
ghost use Rattle.paper.specs.Listed.{question_listed};
ghost use Rattle.paper.specs.Refusal.{refusal_of};

use block::line::Plan;
use situation::Situation;

// How many events it lists, and the bytes of its events and of its readings. The count is the byte that slots are tested by.
#[derive(Clone, Copy)]
pub struct Accepted<'a> {
    pub plan: Plan,
    pub situation: Situation,
    pub count: u8,
    pub events: &'a [u8],
    pub readings: &'a [u8],
    pub length: u8,
    ghost accepted: { refusal_of (question_listed plan situation events.now readings.now length) ≡ 0 },
    ghost counted: { count ≡ size (events_in events.now) },
    ghost events_whole: { size events.now ≡ 2 * size (events_in events.now) },
    ghost readings_whole: { size readings.now ≡ 3 * size (readings_in readings.now) },
}
