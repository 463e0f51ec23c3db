// A reading that a question asks for.

// "Reading: kind, argument, value." Any bytes, not an enum: a reading out of range is judged too, with 21.
#[derive(Clone, Copy, Debug, PartialEq, Eq)]
pub struct Reading {
    pub kind: u8,
    pub argument: u8,
    pub value: u8,
}
