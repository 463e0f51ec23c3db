// Slots written into lent room.
ghost use Rattle.std.specs.Prelude.{◌≡◌, false, ◌++◌, [], ◌∷◌, ◌+◌, ◌*◌, ◌≤◌, ◌<◌, length, drop};
ghost use Rattle.keylaws.specs.Parts.{handed};
ghost use Rattle.keylaws.specs.Sheet.{grow, put};

use super::form::SLOT;

// How many slots the room holds, and whether one more is known that has no place.
// A count and a bool, not a Result: a full room still tells how many slots it holds, as the call that fetches a part does.
#[derive(Clone, Copy, Debug, PartialEq, Eq)]
pub struct Part {
    pub count: usize,
    pub more: bool,
}

// The slot writer: six bytes at the front of the part that it is lent.
fn write_slot(slot: [u8; 6], part: &mut [u8])
    requires { 6 ≤ length part.old }
    ensures { part.new ≡ slot ++ drop 6 part.old }
{
    copying::copy(&slot, part);
}

// One slot more, written into the rest of the room, or the news that it has no place.
// A room and a count, not one struct: the engine lends the same room to every step, and a step hands the count back by value, in `Part`.
pub fn put_slot(slot: [u8; 6], count: usize, room: &mut [u8]) -> Part
    requires { 6 * count ≤ length room.old }
    ensures put { handed room.new result.count result.more ≡ put (handed room.old count false) (slot ∷ []) }
    ensures fits { 6 * result.count ≤ length room.new }
{
    let start = SLOT * count;
    if room.len() - start < SLOT {
        return Part { count, more: true };
    }
    write_slot(slot, &mut room[start..]);
    let count = count + 1;
    Part { count, more: false }
}

// One place more for the slot of so many places at the front.
fn grow(slot: &mut [u8], depth: usize, place: usize)
    requires { (6 ≤ length slot.old) × (depth < 5) × (place < 256) }
    ensures { slot.new ≡ grow slot.old depth place }
{
    slot[0] = (depth + 1) as u8;
    slot[depth + 1] = place as u8;
}

// A slot of so many places, with one place more.
pub fn grow_slot(slot: [u8; 6], depth: usize, place: usize) -> [u8; 6]
    requires { (depth < 5) × (place < 256) }
    ensures { result ≡ grow slot depth place }
{
    let mut x = slot;
    grow(&mut x, depth, place);
    x
}

// The same as `put_slot` of that slot, which grows where it stands: it is copied once.
pub fn put_grown(slot: [u8; 6], depth: usize, place: usize, count: usize, room: &mut [u8]) -> Part
    requires { (6 * count ≤ length room.old) × (depth < 5) × (place < 256) }
    ensures put { handed room.new result.count result.more ≡ put (handed room.old count false) (grow slot depth place ∷ []) }
    ensures fits { 6 * result.count ≤ length room.new }
{
    let part = put_slot(slot, count, room);
    if !part.more {
        grow(&mut room[SLOT * count..], depth, place);
    }
    part
}
