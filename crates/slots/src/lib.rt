// Slots: six bytes, the length, then the places in EV, zero filled.
#![tactic(auto)]

pub mod form;
pub mod room;
