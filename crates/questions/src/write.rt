// A question, written as bytes into lent room: one record after the other.
ghost use Rattle.std.specs.Prelude.{◌≡◌, true, ◌∷◌, ◌+◌, ◌*◌, ◌≤◌, length, take};
ghost use Rattle.situation.specs.Packed.{unpacked};
ghost use Rattle.records.specs.Plan.{plan};
ghost use Rattle.records.specs.Situation.{codes_of, situation};
ghost use Rattle.records.specs.Lists.{answer_length};
ghost use Rattle.records.specs.InBytes.{plan_size, situation_size};
ghost use Rattle.paper.specs.Question.{written};
ghost use Rattle.forms.specs.Form.{laid};
ghost use Rattle.questions.specs.Write.{written_of, room_after};
ghost use Rattle.questions.specs.InCode.{asked, written_as};

use super::judge::refusal_of;
use super::question::{Items, Question};
use block::line::Plan;
use block::refused::Refusal;
use forms::Letters;
use records::lists::{EV, EVENT, LN, RD, READING};
use records::plan::{LB, LC, RULES_2012, plan_size};
use situations::{put_situation, record_size};

// EV, RD and LN have 3 bytes each, before any event or reading.
const HEADS: usize = 9;

// LB for a plan of 2024, LC for one of 2012.
fn put_plan(p: Plan, room: &mut [u8]) -> usize
    requires { plan_size p ≤ length room.old }
    ensures value { result ≡ plan_size p }
    ensures room_after { room.new ≡ laid (plan.written p) room.old }
{
    if p.rules2012 {
        let lc = [LC.first, LC.second, p.sections, p.frontier, RULES_2012];
        return copying::copy(&lc, room);
    }
    let lb = [LB.first, LB.second, p.sections, p.frontier];
    copying::copy(&lb, room)
}

// Two letters, the count, and the items.
fn put_items<const WIDTH: usize>(letters: Letters, items: Items<WIDTH>, room: &mut [u8]) -> usize
    requires { (WIDTH * items.count ≤ 24) × (3 + WIDTH * items.count ≤ length room.old) }
    ensures value { result ≡ 3 + WIDTH * items.entry.count }
    ensures room_after { room.new ≡ laid (letters.first ∷ letters.second ∷ items.entry.count ∷ take (WIDTH * items.entry.count) items.entry.bytes) room.old }
{
    let head = [letters.first, letters.second, items.count];
    let at = copying::copy(&head, room);
    at + copying::copy(items.listed(), &mut room[at..])
}

fn put_length(n: u8, room: &mut [u8]) -> usize
    requires { 3 ≤ length room.old }
    ensures value { result ≡ 3 }
    ensures room_after { room.new ≡ laid (answer_length.written n) room.old }
{
    let ln = [LN.first, LN.second, n];
    copying::copy(&ln, room)
}

fn put_question(q: Question, room: &mut [u8]) -> usize
    requires count_bound { (q.events.count ≤ 12) × (q.readings.count ≤ 6) × (situation.writes (codes_of (unpacked q.situation)) ≡ true) }
    requires count_in_bounds { 9 + plan_size q.plan + situation_size (codes_of (unpacked q.situation)) + 2 * q.events.count + 3 * q.readings.count ≤ length room.old }
    ensures value { result ≡ length (written (asked q)) }
    ensures room_after { room.new ≡ laid (written (asked q)) room.old }
{
    // Where each record begins, not the rest of the room handed on: the last place is the length that is told.
    let si = put_plan(q.plan, room);
    let ev = si + put_situation(q.situation, &mut room[si..]);
    let rd = ev + put_items(EV, q.events, &mut room[ev..]);
    let ln = rd + put_items(RD, q.readings, &mut room[rd..]);
    ln + put_length(q.length, &mut room[ln..])
}

// An accepted question is written, and its length returned; any other gets its refusal, and the room keeps its values.
pub fn write_question(q: Question, room: &mut [u8]) -> Result<usize, Refusal>
    ensures value { written_as result ≡ written_of (asked q) room.old }
    ensures room_after { room.new ≡ room_after (asked q) room.old }
{
    refusal_of(q)?;
    let lists = EVENT * usize::from(q.events.count) + READING * usize::from(q.readings.count);
    let size = HEADS + plan_size(q.plan) + record_size(q.situation) + lists;
    if room.len() < size {
        return Err(Refusal::ShortRoom);
    }
    Ok(put_question(q, room))
}
