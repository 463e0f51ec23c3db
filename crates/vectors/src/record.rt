// A case as it stands in standard input: head, three inputs, and what is to be written.
use crate::calls::answer;
use crate::room::{FILLED, is_left};
use input::read_full;
use std::io::Result;

// The bytes of a head.
pub(crate) const HEAD: usize = 21;

// The most that follows a head.
pub(crate) const BODY: usize = 65536;

// A case that makes no call differs whatever number it wants but this, which no call answers.
const NO_CALL: u64 = u64::MAX;

// The call's kind, the length of its room, its answer, and the lengths of the inputs and of all that follows the head.
#[derive(Clone, Copy)]
pub(crate) struct Head {
    kind: u8,
    room: usize,
    answer: u64,
    first: usize,
    second: usize,
    third: usize,
    body: usize,
}

impl From<[u8; HEAD]> for Head {
    fn from(b: [u8; HEAD]) -> Head {
        Head {
            kind: b[0],
            room: u32::from_le_bytes([b[1], b[2], b[3], b[4]]) as usize,
            answer: u64::from_le_bytes([b[5], b[6], b[7], b[8], b[9], b[10], b[11], b[12]]),
            first: usize::from(u16::from_le_bytes([b[13], b[14]])),
            second: usize::from(u16::from_le_bytes([b[15], b[16]])),
            third: usize::from(u16::from_le_bytes([b[17], b[18]])),
            body: usize::from(u16::from_le_bytes([b[19], b[20]])),
        }
    }
}

// Reads the rest of a case and runs it in a room of the case's length. A case that is cut short is not right.
pub(crate) fn case_right(
    rt: HostRuntime,
    head: Head,
    body: &mut [u8],
    space: &mut [u8],
) -> Result<bool> {
    let Some(body) = body.get_mut(..head.body) else {
        return Ok(false);
    };
    if read_full(&mut rt.stdin(), body)? < body.len() {
        return Ok(false);
    }
    let Some(room) = space.get_mut(..head.room) else {
        return Ok(false);
    };
    Ok(is_right(head, body, room).unwrap_or(false))
}

// Whether the call gives the right answer, and leaves the right room; None where the inputs are longer than the body.
fn is_right(head: Head, body: &[u8], room: &mut [u8]) -> Option<bool> {
    let (first, rest) = body.split_at_checked(head.first)?;
    let (second, rest) = rest.split_at_checked(head.second)?;
    let (third, written) = rest.split_at_checked(head.third)?;
    room.fill(FILLED);
    let told = answer(head.kind, first, second, third, room).unwrap_or(NO_CALL);
    Some(told == head.answer && is_left(room, written))
}
