// The walk of a call: exploring a situation tries its events, and trying them explores where each leads.
ghost use Rattle.std.specs.Prelude.{◌≡◌, true, false, ◌+◌, ◌*◌, ◌≤◌, ◌<◌, length, get_or};
ghost use Rattle.block.specs.Line.{is_plan};
ghost use Rattle.keylaws.specs.Walk.{aims, starts};
ghost use Rattle.keylaws.specs.Parts.{handed};
ghost use Rattle.rulebook.specs.Apply.{reached};
ghost use Rattle.situation.specs.Packed.{unpacked};
ghost use Rattle.records.specs.InBytes.{events_in, readings_in};
ghost use Rattle.rules.specs.Judged.{all_right};
ghost use Rattle.rules.specs.RulesOf.{all_hold};
ghost use Rattle.rules.specs.Wanted.{wanted_of};

use block::event::Event;
use block::line::Plan;
use events::{added_in_2012, next, refusal_in_2024};
use records::lists::{EVENT, READING, event_at};
use rules::wanted::{Wanted, all_hold};
use situation::Situation;
use slots::room::{Part, grow_slot, put_grown, put_slot};

// A situation in the walk: the slot that leads to it and its number of places, how many more it may have, whether it lies on the way to the
// continuation, and how many slots are written. The number of places beside the slot: it is the loop's, and the slot is read only where it grows.
#[derive(Clone, Copy, Debug, PartialEq, Eq)]
pub struct Node {
    pub slot: [u8; 6],
    pub depth: usize,
    pub left: usize,
    pub on: bool,
    pub count: usize,
}

// Where a situation's events start, and whether that place lies on the way to the continuation.
// A place and a bool, not an Option: there is a place to start at in both cases.
#[derive(Clone, Copy, Debug, PartialEq, Eq)]
pub struct Start {
    pub place: usize,
    pub on: bool,
}

impl Node {
    fn start(self, from: [u8; 6]) -> Start
        requires { self.depth < 5 }
        ensures on { result.on ≡ aims self.on (get_or from (self.depth + 1) 0) }
        ensures place { result.place ≡ starts self.on (get_or from (self.depth + 1) 0) }
        ensures first { 1 ≤ result.place }
    {
        let next = usize::from(from[self.depth + 1]);
        let on = self.on && 0 < next;
        let place = if on { next } else { 1 };
        Start { place, on }
    }
}

// What stays the same through a call: the plan, where the key is continued, the events and the readings in their bytes, and what these ask.
#[derive(Clone, Copy, Debug)]
pub struct Ask<'a> {
    pub plan: Plan,
    pub from: [u8; 6],
    pub events: &'a [u8],
    pub readings: &'a [u8],
    pub wanted: Wanted,
    ghost is_plan: { is_plan plan ≡ true },
    ghost few_events: { length events.now ≤ 24 },
    ghost all_right: { all_right plan (events_in events.now) ≡ true },
    ghost asked: { wanted ≡ wanted_of readings.now },
}

// Each step asks that the room holds the slots that are counted. No struct of room and count keeps it: it would hold the lent room itself, which
// each step lends on to the next.
impl Ask<'_> {
    ghost use Rattle.engine.specs.Walked.{own, ends, explored, attempted};

    // Whether all readings hold.
    fn holds(&self, x: Situation) -> bool
        ensures { result ≡ all_hold self.now.plan (readings_in self.now.readings.now) (unpacked x) }
    {
        all_hold(self.plan, self.wanted, x, self.readings)
    }

    // The situation's own answer, unless the walk is still on its way to the continuation.
    fn own_answer(&self, x: Situation, at: Node, room: &mut [u8]) -> Part
        requires { 6 * at.count ≤ length room.old }
        ensures put { handed room.new result.count result.more ≡ own self.now (unpacked x) at room.old }
        ensures fits { 6 * result.count ≤ length room.new }
    {
        if !at.on && self.holds(x) {
            return put_slot(at.slot, at.count, room);
        }
        Part {
            count: at.count,
            more: false,
        }
    }

    // Whether an accepted event ends an answer, unless it lies on the way to the continuation. With no readings nothing has to be known of the
    // situation that it leads to.
    fn ends_answer(&self, x: Situation, on: bool, event: Event) -> bool
        ensures { result ≡ ends on self.now (reached self.now.plan (unpacked x) event) }
    {
        !on && (self.readings.len() < READING || self.holds(next(self.plan, x, event)))
    }

    // The answers from a situation: the empty one if the readings hold, then those of its events, while length remains.
    #[cycle(attempt_explore)]
    pub(crate) fn explore(&self, x: Situation, at: Node, room: &mut [u8]) -> Part
        requires count_in_bounds { 6 * at.count ≤ length room.old }
        requires places_in_bounds { at.depth + at.left ≤ 5 }
        ensures put { handed room.new result.count result.more ≡ explored self.now (unpacked x) at room.old }
        ensures fits { 6 * result.count ≤ length room.new }
    {
        let own = self.own_answer(x, at, room);
        if own.more || at.left == 0 {
            return own;
        }
        let rest = Node {
            count: own.count,
            ..at
        };
        self.attempt(x, rest, room)
    }

    // For each event in turn that is accepted, the answers from the situation that it leads to: with no length left after it, its own alone.
    #[cycle(attempt_explore)]
    fn attempt(&self, x: Situation, at: Node, room: &mut [u8]) -> Part
        requires count_in_bounds { 6 * at.count ≤ length room.old }
        requires places_in_bounds { (at.depth + at.left ≤ 5) × (1 ≤ at.left) }
        ensures put { handed room.new result.count result.more ≡ attempted self.now (unpacked x) at room.old }
        ensures fits { 6 * result.count ≤ length room.new }
    {
        let plan = self.plan;
        let start = at.start(self.from);
        let mut on = start.on;
        let mut count = at.count;
        for place in start.place..=self.events.len() / EVENT {
            let event = event_at(self.events, place);
            // Two calls here and no function between: one that asks for the edition copies plan and situation.
            let accepted = refusal_in_2024(plan, x, event).is_ok()
                && (!plan.rules2012 || added_in_2012(plan, x, event).is_ok());
            if accepted {
                if at.left > 1 {
                    let node = Node {
                        slot: grow_slot(at.slot, at.depth, place),
                        depth: at.depth + 1,
                        left: at.left - 1,
                        on,
                        count,
                    };
                    let part = self.explore(next(plan, x, event), node, room);
                    count = part.count;
                    if part.more {
                        // Made anew, since a part that is handed back whole is slower.
                        return Part { count, more: true };
                    }
                } else if self.ends_answer(x, on, event) {
                    let part = put_grown(at.slot, at.depth, place, count, room);
                    count = part.count;
                    if part.more {
                        return Part { count, more: true };
                    }
                }
            }
            on = false;
        }
        Part { count, more: false }
    }
}
