// Questions, their keys in parts, and candidates' slots.
ghost use Rattle.std.specs.Prelude.{◌≡◌, ◌+◌, ◌*◌};
ghost use Rattle.folvkin.specs.Questions.{question_refusal, key_packed, key_room, run_packed};

use block::refused::told;
use keys::{key, run};
use paper::found::find;

pub fn folvkin_question(bytes: &[u8]) -> u8
    ensures { result ≡ question_refusal bytes.now }
{
    match find(bytes) {
        Ok(_) => 0,
        Err(refusal) => refusal.into(),
    }
}

// Refusal + 2^8 more + 2^16 count. The slots are written into the room, later bytes keep their values.
pub fn folvkin_key(bytes: &[u8], after: &[u8], room: &mut [u8]) -> u64
    ensures value { result ≡ key_packed bytes.now after.now room.old }
    ensures room_after { room.new ≡ key_room bytes.now after.now room.old }
{
    match key(bytes, after, room) {
        Ok(part) => 256 * u64::from(part.more) + 65536 * (part.count as u64),
        Err(refusal) => u64::from(u8::from(refusal)),
    }
}

// Refusal + 2^8 place + 2^16 event's refusal + 2^24 holds + 2^32 name.
pub fn folvkin_run(bytes: &[u8], slot: &[u8]) -> u64
    ensures { result ≡ run_packed bytes.now slot.now }
{
    match run(bytes, slot) {
        Ok(Ok(holds)) => 16777216 * u64::from(holds),
        Ok(Err(stop)) => {
            256 * u64::from(stop.place)
                + 65536 * u64::from(u8::from(stop.refusal))
                + 4294967296 * u64::from(stop.name)
        }
        Err(refusal) => u64::from(u8::from(refusal)),
    }
}
