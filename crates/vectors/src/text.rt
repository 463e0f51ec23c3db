// The key program's text, by the program's own pieces, in rooms for one line to seven.
ghost use Rattle.std.specs.Prelude.{◌≤◌};

use printing::{next_piece, start};

const LEAST: usize = 47;

const MOST: usize = 185;

const STEP: usize = 23;

fn next_size(size: usize) -> usize
    requires { 47 ≤ size }
    ensures { 47 ≤ result }
{
    if size < MOST { size + STEP } else { LEAST }
}

// The text of a question, at the front of the room: where it ends. None where the room is too short for it.
pub(crate) fn write_text(question: &[u8], room: &mut [u8]) -> Option<usize> {
    let mut progress = Some(start());
    let mut at: usize = 0;
    let mut size = LEAST;
    // `while`, not `for` or `while let`: the text ends where the next piece says so, and the whole Option is handed on.
    while progress.is_some() {
        if room.len() - at < size {
            return None;
        }
        let end = at + size;
        let piece = next_piece(question, progress, &mut room[at..end]);
        at += piece.length;
        progress = piece.next;
        size = next_size(size);
    }
    Some(at)
}
