// Whether a question is accepted, and the refusal of any other: counts out of range 20, then 1, 2, 3 and 4 event by event, then 21.
ghost use Rattle.std.specs.Prelude.{◌≡◌, ◌≤◌};
ghost use Rattle.block.specs.Refusals.{told};
ghost use Rattle.lists.specs.Refusal.{lists_refusal};
ghost use Rattle.records.specs.InBytes.{events_in, readings_in};
ghost use Rattle.paper.specs.Refusal.{counts_in_range, refusal_of};
ghost use Rattle.questions.specs.InCode.{counted, asked};

use super::question::{Items, Question};
use block::line::Plan;
use block::refused::Refusal;
use lists::lists_refusal;
use records::lists::{EVENT, MOST_EVENTS, MOST_READINGS, READING};
use soundness::judged;

fn counts_in_range(events: u8, readings: u8) -> bool
    ensures { result ≡ counts_in_range events readings }
{
    (1 <= events) & (events <= MOST_EVENTS) & (readings <= MOST_READINGS)
}

// What the listed events, the readings and the length give.
fn items_refusal(
    plan: Plan,
    events: Items<EVENT>,
    readings: Items<READING>,
    length: u8,
) -> Result<(), Refusal>
    requires { (events.count ≤ 12) × (readings.count ≤ 6) }
    ensures { told result ≡ lists_refusal plan (events_in (counted 2 events)) (readings_in (counted 3 readings)) length }
{
    lists_refusal(plan, events.listed(), readings.listed(), length)
}

pub(crate) fn refusal_of(q: Question) -> Result<(), Refusal>
    ensures { told result ≡ refusal_of (asked q) }
{
    if !counts_in_range(q.events.count, q.readings.count) {
        return Err(Refusal::NoForm);
    }
    judged(q.plan, q.situation)?;
    items_refusal(q.plan, q.events, q.readings, q.length)
}
