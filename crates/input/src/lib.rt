// Input read into a room that is lent.
#![tactic(auto)]

ghost use Rattle.std.specs.Prelude.{◌≡◌, ◌≤◌, length, IfOk};

use std::io::{Read, Result};

// Reads until the room is full or the input has ended; returns how many bytes it read. The one error is the reader's own; the room then has
// what was read before it.
// A loop of its own: std's `read_exact` takes an input that ends early for an error, and `read_to_end` needs a heap.
pub fn read_full<R: Read>(reader: &mut R, room: &mut [u8]) -> Result<usize>
    ensures within { IfOk result (λ n. n ≤ length room.new) }
    ensures kept { length room.new ≡ length room.old }
{
    let mut at = 0;
    while at < room.len() {
        let n = reader.read(&mut room[at..])?;
        if n == 0 {
            break;
        }
        at += n;
    }
    Ok(at)
}
