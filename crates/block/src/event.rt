// An event, and where it happens.
use super::line::{Direction, Name, Plan};

// "An event is two bytes, code and argument." Any bytes, not an enum: an unknown code is judged too, with 3.
#[derive(Clone, Copy, Debug, PartialEq, Eq)]
pub struct Event {
    pub code: u8,
    pub argument: u8,
}

// What its bytes name: own, and the section and direction where the argument has them.
#[derive(Clone, Copy, Debug, PartialEq, Eq)]
pub struct Spot {
    pub plan: Plan,
    pub own: Name,
    pub section: u8,
    pub direction: Direction,
}
