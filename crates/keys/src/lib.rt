// Keys of questions: fetched in parts, and candidates' slots run, where the question's bytes lie.
#![tactic(auto)]

ghost use Rattle.std.specs.Prelude.{◌≡◌, true};
ghost use Rattle.keylaws.specs.Slots.{word_of, is_slot};
ghost use Rattle.keylaws.specs.Continuation.{is_continuation};
ghost use Rattle.keylaws.specs.Parts.{handed, part_after};
ghost use Rattle.keylaws.specs.Run.{run};
ghost use Rattle.rules.specs.RulesOf.{name_told};
ghost use Rattle.rules.specs.Told.{outcome, named};
ghost use Rattle.paper.specs.Read.{read_of};
ghost use Rattle.paper.specs.Found.{asked};
ghost use Rattle.keys.specs.Key.{rules};
ghost use Rattle.keys.specs.Calls.{part_of, fetched, slot_run, ran};
ghost use Rattle.keys.specs.Told.{left_by, ran_as};

use block::refused::{Refusal, refuse_if};
use engine::key_part;
use paper::found::find;
use paper::question::Accepted;
use rules::run::{Stopped, run_places};
use slots::form::{SLOT, is_continuation, is_slot};
use slots::room::Part;

// What a candidate's run tells: whether all readings hold, or where it stops.
pub type Ran = Result<bool, Stopped>;

// The part of a question's key after a continuation.
fn part_after(q: &Accepted, after: &[u8], room: &mut [u8]) -> Part
    requires { is_continuation q.now.count q.now.length after.now ≡ true }
    ensures { handed room.new result.count result.more ≡ part_after (rules (asked q.now)) (asked q.now).length (asked q.now).situation after.now room.old }
{
    let mut from = [0u8; SLOT];
    from.copy_from_slice(after);
    let limit = usize::from(q.length);
    key_part(q.situation, limit, q.plan, from, q.events, q.readings, room)
}

// Refusals 22, 24.
fn fetch(q: &Accepted, after: &[u8], room: &mut [u8]) -> Result<Part, Refusal>
    ensures { left_by result room.new ≡ part_of (asked q.now) after.now room.old }
{
    if !is_continuation(q.count, q.length, after) {
        return Err(Refusal::MalformedSlot);
    }
    if room.len() < SLOT {
        return Err(Refusal::ShortRoom);
    }
    Ok(part_after(q, after, room))
}

// A part of a question's key: refusals 20, 1, 2, 3, 4, 21 of the question, then 22, 24. The next slots after `after` are written into the room, as
// many as fit or remain. Bytes after them keep their values, and a refusal changes no byte.
pub fn key(bytes: &[u8], after: &[u8], room: &mut [u8]) -> Result<Part, Refusal>
    ensures { left_by result room.new ≡ fetched (read_of bytes.now) after.now room.old }
{
    let q = find(bytes)?;
    fetch(&q, after, room)
}

// The places of a slot, run in a question.
fn run_slot(q: &Accepted, slot: &[u8]) -> Ran
    requires { is_slot q.now.count q.now.length slot.now ≡ true }
    ensures result_value { outcome result ≡ run (rules (asked q.now)) (asked q.now).situation (word_of slot.now) }
    ensures name_value { named result ≡ name_told (asked q.now).plan (asked q.now).events (asked q.now).situation (word_of slot.now) }
{
    let end = 1 + usize::from(slot[0]);
    run_places(q.plan, q.situation, q.events, q.readings, &slot[1..end])
}

// Refusal 22.
fn run_in(q: &Accepted, slot: &[u8]) -> Result<Ran, Refusal>
    ensures { ran_as result ≡ slot_run (asked q.now) slot.now }
{
    if !is_slot(q.count, q.length, slot) {
        return Err(Refusal::MalformedSlot);
    }
    Ok(run_slot(q, slot))
}

// A candidate's slot, run: refusals 20, 1, 2, 3, 4, 21 of the question, then 22.
pub fn run(bytes: &[u8], slot: &[u8]) -> Result<Ran, Refusal>
    ensures { ran_as result ≡ ran (read_of bytes.now) slot.now }
{
    let q = find(bytes)?;
    run_in(&q, slot)
}
