// The text of a key: a line for each sequence, the total, a refusal.
#![tactic(auto)]

mod line;
mod number;

ghost use Rattle.std.specs.Prelude.{◌≡◌, ◌≤◌, ◌↔◌, length, unwrap_or, IsSome, IfSome};
ghost use Rattle.keytext.specs.Text.{lines, words, labelled, total, refused, longest_lines, longest_total, longest_refused};
ghost use Rattle.keytext.specs.Room.{written, length_written};

use line::{put_labelled, put_line, word_of};
use slots::form::SLOT;

// The longest line of a slot: five places of three digits, with what follows each.
pub const LONGEST_LINE: usize = 20;

// "total", one space, twenty digits, the end of the line.
pub const LONGEST_TOTAL: usize = 27;

// "refused", one space, three digits, the end of the line.
const LONGEST_REFUSED: usize = 12;

// One line for each slot: places separated by one space, "-" for the empty one. The room is to have the bytes of so many longest lines: a
// shorter one keeps its values, and there is no length.
pub fn write_lines(slots: &[u8], room: &mut [u8]) -> Option<usize>
    ensures fits { IsSome result ↔ (longest_lines slots.now ≤ length room.old) }
    ensures told { unwrap_or result 0 ≡ length_written (longest_lines slots.now) (lines (words slots.now)) room.old }
    ensures room { room.new ≡ written (longest_lines slots.now) (lines (words slots.now)) room.old }
    ensures within { IfSome result (λ n. n ≤ length room.new) }
{
    let (whole, _) = slots.as_chunks::<SLOT>();
    if room.len() / LONGEST_LINE < whole.len() {
        return None;
    }
    let mut end = 0;
    for slot in whole {
        end = put_line(word_of(slot), end, room);
    }
    Some(end)
}

// A label and a number, in a room that has as many bytes as the longest such text: a shorter one keeps its values, and there is no length.
fn write_labelled(label: &[u8], n: u64, longest: usize, room: &mut [u8]) -> Option<usize>
    requires { length (labelled label.now n) ≤ longest }
    ensures fits { IsSome result ↔ (longest ≤ length room.old) }
    ensures told { unwrap_or result 0 ≡ length_written longest (labelled label.now n) room.old }
    ensures room { room.new ≡ written longest (labelled label.now n) room.old }
    ensures within { IfSome result (λ n. n ≤ length room.new) }
{
    if room.len() < longest {
        return None;
    }
    Some(put_labelled(label, n, room))
}

// "total" and the count.
pub fn write_total(count: u64, room: &mut [u8]) -> Option<usize>
    ensures fits { IsSome result ↔ (longest_total ≤ length room.old) }
    ensures told { unwrap_or result 0 ≡ length_written longest_total (total count) room.old }
    ensures room { room.new ≡ written longest_total (total count) room.old }
    ensures within { IfSome result (λ n. n ≤ length room.new) }
{
    write_labelled(b"total", count, LONGEST_TOTAL, room)
}

// "refused" and its number.
pub fn write_refused(number: u8, room: &mut [u8]) -> Option<usize>
    ensures fits { IsSome result ↔ (longest_refused ≤ length room.old) }
    ensures told { unwrap_or result 0 ≡ length_written longest_refused (refused number) room.old }
    ensures room { room.new ≡ written longest_refused (refused number) room.old }
    ensures within { IfSome result (λ n. n ≤ length room.new) }
{
    write_labelled(b"refused", u64::from(number), LONGEST_REFUSED, room)
}
