// EV, count 1..12, then events; RD, count 0..6, then readings of three bytes; LN, length.
ghost use Rattle.std.specs.Prelude.{◌≡◌, ◌*◌, ◌≤◌, length};
ghost use Rattle.forms.specs.Taken.{taken};
ghost use Rattle.records.specs.Lists.{events, readings, answer_length, event_at};
ghost use Rattle.records.specs.InBytes.{events_in};
ghost use Rattle.records.specs.Sizes.{IsExtent};

use super::form::{counted, fixed};
use block::event::Event;
use forms::Letters;

// The document's letters of each record, by name; nothing goes through them all.
pub const EV: Letters = Letters {
    first: b'E',
    second: b'V',
};

pub const RD: Letters = Letters {
    first: b'R',
    second: b'D',
};

pub const LN: Letters = Letters {
    first: b'L',
    second: b'N',
};

pub const MOST_EVENTS: u8 = 12;

pub const MOST_READINGS: u8 = 6;

// How many bytes an event has, and a reading.
pub const EVENT: usize = 2;

pub const READING: usize = 3;

// A function for each record, a line each: its letters and limits.
pub(crate) fn take_events(s: &[u8]) -> Option<usize>
    ensures { IsExtent (taken events s.now) s.now result }
{
    counted(s, EV, 1, MOST_EVENTS, EVENT)
}

pub(crate) fn take_readings(s: &[u8]) -> Option<usize>
    ensures { IsExtent (taken readings s.now) s.now result }
{
    counted(s, RD, 0, MOST_READINGS, READING)
}

pub(crate) fn take_length(s: &[u8]) -> Option<usize>
    ensures { IsExtent (taken answer_length s.now) s.now result }
{
    fixed(s, LN, 1)
}

// The event at a place, counted from 1.
pub fn event_at(events: &[u8], place: usize) -> Event
    requires { (1 ≤ place) × (2 * place ≤ length events.now) }
    ensures { result ≡ event_at (events_in events.now) place }
{
    let (pairs, _) = events.as_chunks::<EVENT>();
    let [code, argument] = pairs[place - 1];
    Event { code, argument }
}
