// What calls leave in the rooms that they are lent.

// The longest room of a case.
pub(crate) const LONGEST: usize = 1048576;

// What stands in a room before a call.
pub(crate) const FILLED: u8 = 165;

// Whether the room has the bytes written, and after them what it was filled with.
pub(crate) fn is_left(room: &[u8], written: &[u8]) -> bool {
    room.strip_prefix(written)
        .is_some_and(|rest| rest.iter().all(|&byte| byte == FILLED))
}
