// The key program's text, handed out in pieces.
#![tactic(auto)]

ghost use Rattle.std.specs.Prelude.{◌≡◌, ◌+◌, ◌-◌, ◌*◌, ◌/◌, ◌%◌, ◌^◌, ◌≤◌, false, Some, ◌++◌, length, drop, nat_lt};
ghost use Rattle.keytext.specs.Text.{lines, words, total as Text·total, longest_lines};
ghost use Rattle.keytext.specs.Room.{over};
ghost use Rattle.printing.specs.Pieces.{start as Pieces·start, the_end, progress_of, fitting as Pieces·fitting, piece};

use keytext::{LONGEST_LINE, LONGEST_TOTAL, write_lines, write_refused, write_total};
use slots::form::{FROM_START, SLOT};

// The most lines of a piece.
const PART: usize = 4096;

// A room of so many bytes has all that a piece may have.
pub const ROOM: usize = LONGEST_LINE * PART + LONGEST_TOTAL;

// Where the printing is: the slot that it goes on after, and how many sequences have their lines.
#[derive(Clone, Copy, Debug, PartialEq, Eq)]
pub struct Position {
    pub after: [u8; 6],
    pub total: u64,
}

// How long the piece is, and where the printing is after it; None once the text has ended.
// A length, not a slice of the room: a slice would keep the room lent.
#[derive(Clone, Copy, Debug, PartialEq, Eq)]
pub struct Piece {
    pub length: usize,
    pub next: Option<Position>,
}

pub fn start() -> Position
    ensures { progress_of (Some result) ≡ Pieces·start }
{
    Position {
        after: [FROM_START, 0, 0, 0, 0, 0],
        total: 0,
    }
}

// How many lines have room before a total.
fn fitting(size: usize) -> usize
    requires { 27 ≤ size }
    ensures { result ≡ Pieces·fitting size }
{
    ((size - LONGEST_TOTAL) / LONGEST_LINE).min(PART)
}

// The lines of slots; the next piece goes on after the last of them.
fn lines_piece(slots: &[u8], total: u64, room: &mut [u8]) -> Piece
    requires { (6 ≤ length slots.now) × (longest_lines slots.now ≤ length room.old) }
    ensures told { result.length ≡ length (lines (words slots.now)) }
    ensures room { room.new ≡ over 0 (lines (words slots.now)) room.old }
    ensures next { progress_of result.next ≡ record { after = drop (length slots.now - 6) slots.now; total = (total + length slots.now / 6) % 2 ^ 64; ended = false } }
{
    let length = write_lines(slots, room).unwrap();
    let after = *slots.last_chunk::<SLOT>().unwrap();
    let count = (slots.len() / SLOT) as u64;
    let total = total.wrapping_add(count);
    let next = Some(Position { after, total });
    Piece { length, next }
}

// The lines of the last slots, and the total. Not one with the piece before: that one goes on after a slot, and there may be none here.
fn last_piece(slots: &[u8], total: u64, room: &mut [u8]) -> Piece
    requires { (longest_lines slots.now ≤ length room.old) × (length (lines (words slots.now)) + 27 ≤ length room.old) }
    ensures told { result.length ≡ length (lines (words slots.now) ++ Text·total ((total + length slots.now / 6) % 2 ^ 64)) }
    ensures room { room.new ≡ over 0 (lines (words slots.now) ++ Text·total ((total + length slots.now / 6) % 2 ^ 64)) room.old }
    ensures next { progress_of result.next ≡ the_end }
{
    let at = write_lines(slots, room).unwrap();
    let count = (slots.len() / SLOT) as u64;
    let all = total.wrapping_add(count);
    let length = at + write_total(all, &mut room[at..]).unwrap();
    Piece { length, next: None }
}

// The next piece of a text that has not ended, in a room of a line and a total or more; `slots` has room for the lines that fit.
fn piece_after(question: &[u8], at: Position, slots: &mut [u8], room: &mut [u8]) -> Piece
    requires { (nat_lt (length room.old) 47 ≡ false) × (length slots.old ≡ 6 * Pieces·fitting (length room.old)) }
    ensures told { result.length ≡ length (piece question.now (progress_of (Some at)) (length room.old)).text }
    ensures room { room.new ≡ over 0 (piece question.now (progress_of (Some at)) (length room.old)).text room.old }
    ensures next { progress_of result.next ≡ (piece question.now (progress_of (Some at)) (length room.old)).next }
{
    let part = match keys::key(question, &at.after, slots) {
        Ok(part) => part,
        Err(refusal) => {
            let length = write_refused(refusal.into(), room).unwrap();
            return Piece { length, next: None };
        }
    };
    let end = SLOT * part.count;
    if part.more {
        return lines_piece(&slots[..end], at.total, room);
    }
    last_piece(&slots[..end], at.total, room)
}

// The next piece of the text: as many lines as have room before a total, and after the last line the total; or the refusal. A room of less than a line
// and a total gets nothing, and once the text has ended there is nothing more.
pub fn next_piece(question: &[u8], progress: Option<Position>, room: &mut [u8]) -> Piece
    ensures told { result.length ≡ length (piece question.now (progress_of progress) (length room.old)).text }
    ensures room { room.new ≡ over 0 (piece question.now (progress_of progress) (length room.old)).text room.old }
    ensures next { progress_of result.next ≡ (piece question.now (progress_of progress) (length room.old)).next }
    ensures within { result.length ≤ length room.new }
{
    let nothing = Piece {
        length: 0,
        next: progress,
    };
    let Some(at) = progress else {
        return nothing;
    };
    if room.len() < LONGEST_LINE + LONGEST_TOTAL {
        return nothing;
    }
    let mut slots = [0u8; SLOT * PART];
    let end = SLOT * fitting(room.len());
    piece_after(question, at, &mut slots[..end], room)
}
