// The call of each kind of case, and its answer as one number.
use crate::text::write_text;
use folvkin::block_calls::{
    folvkin_aspects, folvkin_event, folvkin_plan, folvkin_reading, folvkin_situation,
};
use folvkin::marking_calls::folvkin_mark;
use folvkin::question_calls::{folvkin_key, folvkin_question, folvkin_run};

// What a case calls: a function of the interface, or the key program's text.
#[derive(Clone, Copy, Debug, PartialEq, Eq)]
pub(crate) enum Call {
    Plan,
    Situation,
    Event,
    Aspects,
    Reading,
    Question,
    Key,
    Run,
    Mark,
    Text,
}

// A byte that names no call.
#[derive(Clone, Copy, Debug, PartialEq, Eq)]
pub(crate) struct UnknownCall;

impl TryFrom<u8> for Call {
    type Error = UnknownCall;

    fn try_from(kind: u8) -> Result<Self, UnknownCall> {
        match kind {
            1 => Ok(Call::Plan),
            2 => Ok(Call::Situation),
            3 => Ok(Call::Event),
            4 => Ok(Call::Aspects),
            5 => Ok(Call::Reading),
            6 => Ok(Call::Question),
            7 => Ok(Call::Key),
            8 => Ok(Call::Run),
            9 => Ok(Call::Mark),
            10 => Ok(Call::Text),
            _ => Err(UnknownCall),
        }
    }
}

// None where the kind names no call, or the inputs are none of the call's.
pub(crate) fn answer(
    kind: u8,
    first: &[u8],
    second: &[u8],
    third: &[u8],
    room: &mut [u8],
) -> Option<u64> {
    let told = match Call::try_from(kind).ok()? {
        Call::Plan => u64::from(folvkin_plan(first)),
        Call::Situation => u64::from(folvkin_situation(first, second)),
        Call::Event => folvkin_event(first, second, third, room),
        Call::Aspects => u64::from(folvkin_aspects(first, second, room)),
        Call::Reading => u64::from(folvkin_reading(first, second, third)),
        Call::Question => u64::from(folvkin_question(first)),
        Call::Key => folvkin_key(first, second, room),
        Call::Run => folvkin_run(first, second),
        Call::Mark => u64::from(mark(first.try_into().ok()?, room)),
        Call::Text => write_text(first, room).unwrap_or(0) as u64,
    };
    Some(told)
}

// Kind, amount (4 bytes), speed (4), tolerance (4), unit, pattern (4).
fn mark(typed: [u8; 18], room: &mut [u8]) -> u8 {
    let amount = u32::from_le_bytes([typed[1], typed[2], typed[3], typed[4]]);
    let speed = u32::from_le_bytes([typed[5], typed[6], typed[7], typed[8]]);
    let tolerance = u32::from_le_bytes([typed[9], typed[10], typed[11], typed[12]]);
    let pattern = u32::from_le_bytes([typed[14], typed[15], typed[16], typed[17]]);
    folvkin_mark(typed[0], amount, speed, tolerance, typed[13], pattern, room)
}
