// Numbers in decimal, written from a place of the room on; each function returns where it ends.
// By hand, not by Display: a formatter would write into another buffer first, from which each of a key's places were to be copied.
ghost use Rattle.std.specs.Prelude.{◌≡◌, ◌+◌, ◌≤◌, ◌<◌, length};
ghost use Rattle.keytext.specs.Decimal.{decimal, digit as Decimal·digit};
ghost use Rattle.keytext.specs.Room.{over};

fn digit(d: u64) -> u8
    requires { d < 10 }
    ensures { result ≡ Decimal·digit d }
{
    b'0' + d as u8
}

// A room and a place, not the part of the room from there: with parts the key program takes 8 in 100 instructions more.
pub(crate) fn put_number(n: u64, at: usize, room: &mut [u8]) -> usize
    requires { at + length (decimal n) ≤ length room.old }
    ensures end { result ≡ at + length (decimal n) }
    ensures room { room.new ≡ over at (decimal n) room.old }
{
    if n < 10 {
        room[at] = digit(n);
        return at + 1;
    }
    let last = put_number(n / 10, at, room);
    room[last] = digit(n % 10);
    last + 1
}

// A place of an event, with two digits at hand: a question has at most 12 events, so that the places of a key are below 20, and for these nothing is
// divided.
pub(crate) fn put_place(place: u8, at: usize, room: &mut [u8]) -> usize
    requires { at + length (decimal place) ≤ length room.old }
    ensures end { result ≡ at + length (decimal place) }
    ensures room { room.new ≡ over at (decimal place) room.old }
{
    let n = u64::from(place);
    if n < 10 {
        room[at] = digit(n);
        return at + 1;
    }
    if n < 20 {
        room[at] = digit(1);
        room[at + 1] = digit(n - 10);
        return at + 2;
    }
    put_number(n, at, room)
}
