// Lines, written from a place of a room on that has their bytes; each function returns where it ends.
ghost use Rattle.std.specs.Prelude.{◌≡◌, ℕ, ◌+◌, ◌≤◌, ◌<◌, length, get_or};
ghost use Rattle.keylaws.specs.Slots.{word_of};
ghost use Rattle.keytext.specs.Text.{line, spaced, labelled};
ghost use Rattle.keytext.specs.Room.{over};

use super::number::{put_number, put_place};
use slots::form::SLOT;

// The places of a slot.
pub(crate) fn word_of(slot: &[u8; SLOT]) -> &[u8]
    ensures word { result.now ≡ word_of slot.now }
    ensures places { (length result.now ≤ 5) × ((i : ℕ) → get_or result.now i 0 < 256) }
{
    let count = usize::from(slot[0]).min(SLOT - 1);
    &slot[1..1 + count]
}

// One space before each place.
fn put_spaced(word: &[u8], at: usize, room: &mut [u8]) -> usize
    requires { at + length (spaced word.now) ≤ length room.old }
    ensures end { result ≡ at + length (spaced word.now) }
    ensures room { room.new ≡ over at (spaced word.now) room.old }
{
    let mut end = at;
    for &place in word {
        room[end] = b' ';
        end = put_place(place, end + 1, room);
    }
    end
}

// The line of a sequence.
pub(crate) fn put_line(word: &[u8], at: usize, room: &mut [u8]) -> usize
    requires { at + length (line word.now) ≤ length room.old }
    ensures end { result ≡ at + length (line word.now) }
    ensures room { room.new ≡ over at (line word.now) room.old }
{
    match word {
        [] => {
            room[at] = b'-';
            room[at + 1] = b'\n';
            at + 2
        }
        [first, others @ ..] => {
            let end = put_place(*first, at, room);
            let last = put_spaced(others, end, room);
            room[last] = b'\n';
            last + 1
        }
    }
}

// A label, one space, a number and the end of the line, at the front.
pub(crate) fn put_labelled(label: &[u8], n: u64, room: &mut [u8]) -> usize
    requires { length (labelled label.now n) ≤ length room.old }
    ensures end { result ≡ length (labelled label.now n) }
    ensures room { room.new ≡ over 0 (labelled label.now n) room.old }
{
    let at = copying::copy(label, room);
    room[at] = b' ';
    let last = put_number(n, at + 1, room);
    room[last] = b'\n';
    last + 1
}
