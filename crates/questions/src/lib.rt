// Questions as values: read from bytes, judged, and written again. Each accepted question has one byte form.
#![tactic(auto)]

pub mod judge;
pub mod question;
pub mod read;
pub mod write;
