// The key program: the key of the question on standard input, one line for each sequence, then the total; or its refusal.
#![tactic(auto)]

ghost use Rattle.std.specs.Prelude.{◌≡◌, ◌≤◌, length, IfOk};
ghost use Rattle.printing.specs.Printed.{printed, Enough};

use input::read_full;
use printing::{ROOM, next_piece, start};
use std::io::{Print, Result};

// A question has at most 79 bytes: of a longer input one byte more is enough to refuse it.
const INPUT: usize = 80;

// Reads as much of standard input as its text depends on: whatever bytes follow, the text is the same. The one error is that of a read.
fn read_input(rt: HostRuntime, input: &mut [u8; INPUT]) -> Result<usize>
    ensures enough { Enough (length input.old) }
    ensures within { IfOk result (λ n. n ≤ length input.new) }
    ensures kept { length input.new ≡ length input.old }
{
    read_full(&mut rt.stdin(), input)
}

// Writes the question's text, piece by piece, until it has ended; returns how many bytes the pieces had. The one error is that of a write.
fn print_text(rt: HostRuntime, question: &[u8], room: &mut [u8]) -> Result<u64>
    requires { 47 ≤ length room.old }
    ensures told { IfOk result (λ n. n ≡ length (printed question.now)) }
    ensures kept { length room.new ≡ length room.old }
{
    let mut progress = Some(start());
    let mut printed: u64 = 0;
    // `while`, not `for` or `while let`: the text ends where the next piece says so, and the whole Option is handed on.
    while progress.is_some() {
        let piece = next_piece(question, progress, room);
        rt.stdout().write_all(&room[..piece.length])?;
        printed += piece.length as u64;
        progress = piece.next;
    }
    Ok(printed)
}

fn main(rt: HostRuntime) -> Result<()> {
    let mut input = [0u8; INPUT];
    let n = read_input(rt, &mut input)?;
    let mut room = [0u8; ROOM];
    print_text(rt, &input[..n], &mut room)?;
    Ok(())
}
