// The records of a question, found in turn: each after the one before it, and then the end.
ghost use Rattle.std.specs.Prelude.{◌≡◌, option_map};
ghost use Rattle.forms.specs.Whole.{whole};
ghost use Rattle.records.specs.Question.{question};
ghost use Rattle.records.specs.Laid.{bytes_laid, laid_in};

use super::form::HEAD;
use super::lists::{take_events, take_length, take_readings};
use super::plan::take_plan;
use super::situation::take_situation;

// The bytes of the plan's record and of the situation's, those of the events and of the readings behind their count, and the length.
#[derive(Clone, Copy, Debug, PartialEq, Eq)]
pub struct Laid<'a> {
    pub plan: &'a [u8],
    pub situation: &'a [u8],
    pub events: &'a [u8],
    pub readings: &'a [u8],
    pub length: u8,
}

// What lies in the bytes where they are the records of a question and nothing after them.
pub fn where_laid(bytes: &[u8]) -> Option<Laid<'_>>
    ensures { option_map bytes_laid result ≡ laid_in (whole question bytes.now) }
{
    let (plan, from_si) = bytes.split_at(take_plan(bytes)?);
    let (situation, from_ev) = from_si.split_at(take_situation(from_si)?);
    let (ev, from_rd) = from_ev.split_at(take_events(from_ev)?);
    let (rd, ln) = from_rd.split_at(take_readings(from_rd)?);
    if take_length(ln)? < ln.len() {
        return None;
    }
    Some(Laid {
        plan,
        situation,
        events: &ev[HEAD..],
        readings: &rd[HEAD..],
        length: ln[2],
    })
}
