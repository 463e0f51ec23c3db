// Numbers typed by candidates, marked exactly.
#![tactic(auto)]

mod sheet;
pub mod typed;

ghost use Rattle.std.specs.Prelude.{◌≡◌};
ghost use Rattle.marking.specs.Sheet.{marked};
ghost use Rattle.marking.specs.Told.{number_of, marked_as, refusal_of};
ghost use Rattle.marking.specs.Typed.{typed_refusal, room_after};

use copying::copy;
use numeric::Line;
use numeric::question::Numbers;
use sheet::sheet_line;
use typed::{LINE, Typed, line_bytes};

// An answer is blank, seconds with a float, or metres with a float.
#[derive(Clone, Copy, Debug, PartialEq)]
pub enum Answer {
    Blank,
    Seconds(f32),
    Metres(f32),
}

// Why an answer is not marked, by the document's numbers. Of its own: 23 comes nowhere else, and marking knows nothing of the block.
#[derive(Clone, Copy, Debug, PartialEq, Eq)]
pub enum Refusal {
    OutOfRange = 23,
    ShortRoom = 24,
}

impl From<Refusal> for u8 {
    ghost from_gives = { λ r n. n ≡ number_of r };

    fn from(refusal: Refusal) -> u8 {
        refusal as u8
    }
}

// Marks an answer to the question that has these numbers.
#[tactic(auto, unfolding(crate::specs::Sheet::marked))]
pub fn mark(numbers: Numbers, answer: Answer) -> Result<Line, Refusal>
    ensures { marked_as result ≡ marked numbers.kind numbers.amount numbers.speed numbers.tolerance answer }
{
    let question = numbers.question().ok_or(Refusal::OutOfRange)?;
    Ok(sheet_line(question, answer))
}

// Marks an answer given as it is typed, and writes the line's bytes into the lent room.
pub fn mark_typed(numbers: Numbers, typed: Typed, room: &mut [u8]) -> Result<(), Refusal>
    ensures refusal { refusal_of result ≡ typed_refusal numbers.kind numbers.amount numbers.speed numbers.tolerance typed.unit room.old }
    ensures room { room.new ≡ room_after numbers.kind numbers.amount numbers.speed numbers.tolerance typed.unit typed.pattern room.old }
{
    let question = numbers.question().ok_or(Refusal::OutOfRange)?;
    let answer = typed.answer().ok_or(Refusal::OutOfRange)?;
    if room.len() < LINE {
        return Err(Refusal::ShortRoom);
    }
    let line = sheet_line(question, answer);
    let bytes = line_bytes(typed.given(), line);
    copy(&bytes, room);
    Ok(())
}
