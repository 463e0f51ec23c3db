// Plans, situations, events, aspects and readings. A plan and a situation are the records of a question, exactly as they stand there.
ghost use Rattle.std.specs.Prelude.{◌≡◌, true, ◌+◌, ◌≤◌, ◌++◌, length, drop, leb};
ghost use Rattle.block.specs.Refusals.{told};
ghost use Rattle.rulebook.specs.Judged.{judged};
ghost use Rattle.lists.specs.Refusal.{◌unless◌, ◌or_else◌};
ghost use Rattle.block.specs.Line.{is_plan};
ghost use Rattle.rulebook.specs.Names.{name};
ghost use Rattle.situation.specs.Packed.{unpacked};
ghost use Rattle.paper.specs.Given.{given};
ghost use Rattle.folvkin.specs.ShownInTurn.{first_shown};
ghost use Rattle.folvkin.specs.Block.{tried_refusal, record_after, told_with, room_with, plan_refusal, situation_refusal, event_packed, event_room, reading_told, packed, first_aspects, aspects_told, aspects_room};

use block::event::Event;
use block::line::{Direction, Plan, plan_judged};
use block::refused::{Refusal, told};
use events::{name_of, next, own_refusal};
use lists::event_refusal;
use paper::given::both_given;
use records::lists::EVENT;
use records::plan::{is_plan, plan_in};
use sections::one_down;
use signals::lights::{Lights, all_lights, shown};
use signals::readings::reading;
use situation::Situation;
use situations::put_situation;
use soundness::judged;

// No situation is ever longer.
const LONGEST_SITUATION: usize = 96;

// What is told where bytes are not of the form.
const NO_FORM: u8 = Refusal::NoForm as u8;

pub fn folvkin_plan(plan: &[u8]) -> u8
    ensures { result ≡ plan_refusal plan.now }
{
    if !is_plan(plan) {
        return NO_FORM;
    }
    told(plan_judged(plan_in(plan)))
}

pub fn folvkin_situation(plan: &[u8], situation: &[u8]) -> u8
    ensures { result ≡ situation_refusal plan.now situation.now }
{
    let Some((x, plan)) = both_given(plan, situation) else {
        return NO_FORM;
    };
    told(judged(plan, x))
}

// Refusals 1, 2, 3, 4, 24, then the event's own. Plan and situation go as two values, here as everywhere below: a struct of both was copied at each
// call.
fn tried_refusal(plan: Plan, x: Situation, event: Event, room: usize) -> Result<(), Refusal>
    ensures { told result ≡ tried_refusal plan (unpacked x) event room }
{
    judged(plan, x)?;
    event_refusal(plan, event)?;
    if room < LONGEST_SITUATION {
        return Err(Refusal::ShortRoom);
    }
    own_refusal(plan, x, event)
}

// The event, and the situation after it as records.
fn event_written(plan: Plan, x: Situation, event: Event, room: &mut [u8]) -> u64
    ensures value { result ≡ told_with (tried_refusal plan (unpacked x) event (length room.old)) (name plan (unpacked x) event (tried_refusal plan (unpacked x) event (length room.old))) (record_after plan (unpacked x) event) }
    ensures room_after { room.new ≡ room_with (tried_refusal plan (unpacked x) event (length room.old)) (record_after plan (unpacked x) event) room.old }
{
    if let Err(refusal) = tried_refusal(plan, x, event, room.len()) {
        let number = u8::from(refusal);
        let name = name_of(plan, x, event, number);
        return u64::from(number) + 256 * u64::from(name);
    }
    let length = put_situation(next(plan, x, event), room);
    65536 * (length as u64)
}

// Refusal + 2^8 name + 2^16 length; 13 names the lowest occupied section (0 where a count runs alone), 9 the station that holds the exit route
// (0 A, 1 B). An accepted event writes the situation after it, as records; later bytes keep their values, and a refused one changes no byte.
pub fn folvkin_event(plan: &[u8], situation: &[u8], event: &[u8], room: &mut [u8]) -> u64
    ensures value { result ≡ event_packed (given plan.now situation.now) event.now room.old }
    ensures room_after { room.new ≡ event_room (given plan.now situation.now) event.now room.old }
{
    let Some((x, plan)) = both_given(plan, situation) else {
        return u64::from(NO_FORM);
    };
    // By its length, not by a pattern: where no pattern fits, a proof is told nothing of the length.
    if event.len() != EVENT {
        return u64::from(NO_FORM);
    }
    let event = Event {
        code: event[0],
        argument: event[1],
    };
    event_written(plan, x, event, room)
}

// Refusal + 2^8 value. A reading is kind and argument.
pub fn folvkin_reading(plan: &[u8], situation: &[u8], kind_and_argument: &[u8]) -> u32
    ensures { result ≡ packed (reading_told (given plan.now situation.now) kind_and_argument.now) }
{
    let Some((x, plan)) = both_given(plan, situation) else {
        return u32::from(NO_FORM);
    };
    // By its length, as an event.
    if kind_and_argument.len() != 2 {
        return u32::from(NO_FORM);
    }
    match reading(plan, x, kind_and_argument[0], kind_and_argument[1]) {
        Ok(value) => 256 * u32::from(value),
        Err(refusal) => u32::from(u8::from(refusal)),
    }
}

// The aspects of the signals of a direction over the sections 1..n, each as section 0 of sets that move down. Later bytes keep their
// values.
fn show_direction(lights: Lights, n: u8, room: &mut [u8])
    requires { n ≤ length room.old }
    ensures { room.new ≡ first_shown lights n ++ drop n room.old }
{
    let mut rest = lights;
    for i in 0..usize::from(n) {
        rest = Lights {
            open: one_down(rest.open),
            green: one_down(rest.green),
        };
        room[i] = shown(rest, 0);
    }
}

// The signals 1..n, then 129..128+n.
fn show(plan: Plan, x: Situation, room: &mut [u8])
    requires { (is_plan plan ≡ true) × (plan.sections + plan.sections ≤ length room.old) }
    ensures { room.new ≡ first_aspects plan (unpacked x) (plan.sections + plan.sections) ++ drop (plan.sections + plan.sections) room.old }
{
    let n = plan.sections;
    let to_b = all_lights(plan, x, Direction::TowardsB);
    let to_a = all_lights(plan, x, Direction::TowardsA);
    show_direction(to_b, n, room);
    let at = usize::from(n);
    show_direction(to_a, n, &mut room[at..]);
}

// Refusals 1, 2, 24; a refusal changes no byte.
fn aspects_shown(plan: Plan, x: Situation, room: &mut [u8]) -> Result<(), Refusal>
    ensures value { told result ≡ (judged plan (unpacked x) or_else 24 unless leb (plan.sections + plan.sections) (length room.old)) }
    ensures room_after { room.new ≡ room_with (told result) (first_aspects plan (unpacked x) (plan.sections + plan.sections)) room.old }
{
    judged(plan, x)?;
    let n = usize::from(plan.sections);
    if room.len() < n + n {
        return Err(Refusal::ShortRoom);
    }
    show(plan, x, room);
    Ok(())
}

// Writes 2n bytes: the aspects of 1..n, then of 129..128+n. A room too short is refused with 24; later bytes keep their values.
pub fn folvkin_aspects(plan: &[u8], situation: &[u8], room: &mut [u8]) -> u8
    ensures value { result ≡ aspects_told (given plan.now situation.now) room.old }
    ensures room_after { room.new ≡ aspects_room (given plan.now situation.now) room.old }
{
    let Some((x, plan)) = both_given(plan, situation) else {
        return NO_FORM;
    };
    told(aspects_shown(plan, x, room))
}
