// Numbers typed by candidates.
ghost use Rattle.std.specs.Prelude.{◌≡◌};
ghost use Rattle.marking.specs.Typed.{typed_refusal, room_after};

use marking::typed::Typed;
use numeric::question::Numbers;

// Writes the 13 bytes of the sheet line. A room under 13 bytes is refused with 24, after 23; later bytes keep their values.
// Six numbers and a room, not structs: the C interface hands them over so.
pub fn folvkin_mark(
    kind: u8,
    amount: u32,
    speed: u32,
    tolerance: u32,
    unit: u8,
    pattern: u32,
    room: &mut [u8],
) -> u8
    ensures value { result ≡ typed_refusal kind amount speed tolerance unit room.old }
    ensures room_after { room.new ≡ room_after kind amount speed tolerance unit pattern room.old }
{
    let numbers = Numbers {
        kind,
        amount,
        speed,
        tolerance,
    };
    match marking::mark_typed(numbers, Typed { unit, pattern }, room) {
        Ok(()) => 0,
        Err(refusal) => u8::from(refusal),
    }
}
