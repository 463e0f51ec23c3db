// The lists of a question, judged: 3 and 4 event by event, then 21.
#![tactic(auto)]

ghost use Rattle.std.specs.Prelude.{◌≡◌, ◌+◌, ◌*◌, ◌/◌, ◌%◌, ◌<◌, true, false};
ghost use Rattle.block.specs.Refusals.{told};
ghost use Rattle.records.specs.InBytes.{events_in, readings_in};
ghost use Rattle.lists.specs.Refusal.{event_refusal, events_refusal, listed_twice, readings_in_range, lists_refusal};

use block::event::Event;
use block::line::Plan;
use block::refused::{Refusal, refuse_if};
use events::bytes_refusal;
use records::lists::{EVENT, READING};
use sections::{has, with_section};
use signals::readings::reading_in_range;

const LONGEST: u8 = 5;

// 3 unknown code; 4 argument.
pub fn event_refusal(plan: Plan, event: Event) -> Result<(), Refusal>
    ensures { told result ≡ event_refusal plan event }
{
    bytes_refusal(plan, event)
}

fn events_refusal(plan: Plan, events: &[u8]) -> Result<(), Refusal>
    ensures { told result ≡ events_refusal plan (events_in events.now) }
{
    let (pairs, _) = events.as_chunks::<EVENT>();
    for &[code, argument] in pairs {
        event_refusal(plan, Event { code, argument })?;
    }
    Ok(())
}

// Whether an event is listed twice: each is compared with those after it.
fn compared(events: &[u8]) -> bool
    ensures { result ≡ listed_twice (events_in events.now) }
{
    let (mut left, _) = events.as_chunks::<EVENT>();
    while let Some((event, after)) = left.split_first() {
        if after.contains(event) {
            return true;
        }
        left = after;
    }
    false
}

// The word, of four, in which an event has its bit.
fn word_of(event: Event) -> usize
    ensures { (result ≡ event.code % 4) × (result < 4) }
{
    usize::from(event.code % 4)
}

// The bit of an event in that word: few events of a question share one.
fn bit_of(event: Event) -> u8
    ensures { (result ≡ (2 * (event.code / 4) + event.argument) % 32) × (result < 32) }
{
    ((2 * u16::from(event.code / 4) + u16::from(event.argument)) % 32) as u8
}

// Whether no two events share a bit. Then none is listed twice.
fn apart(events: &[u8]) -> bool
    ensures { result ≡ true → listed_twice (events_in events.now) ≡ false }
{
    let mut seen = [0u64; 4];
    let (pairs, _) = events.as_chunks::<EVENT>();
    for &[code, argument] in pairs {
        let event = Event { code, argument };
        let word = word_of(event);
        let bit = bit_of(event);
        let before = seen[word];
        if has(before, u16::from(bit)) {
            return false;
        }
        seen[word] = with_section(before, bit);
    }
    true
}

fn listed_twice(events: &[u8]) -> bool
    ensures { result ≡ listed_twice (events_in events.now) }
{
    !apart(events) && compared(events)
}

fn readings_in_range(plan: Plan, readings: &[u8]) -> bool
    ensures { result ≡ readings_in_range plan (readings_in readings.now) }
{
    let (triples, _) = readings.as_chunks::<READING>();
    triples.iter().all(|&[kind, argument, value]| reading_in_range(plan, kind, argument, value))
}

// 3 and 4 event by event, then 21.
pub fn lists_refusal(plan: Plan, events: &[u8], readings: &[u8], length: u8) -> Result<(), Refusal>
    ensures { told result ≡ lists_refusal plan (events_in events.now) (readings_in readings.now) length }
{
    events_refusal(plan, events)?;
    let short = length <= LONGEST;
    let once = !listed_twice(events);
    let readable = readings_in_range(plan, readings);
    refuse_if(!(short & once & readable), Refusal::OutOfRange)
}
