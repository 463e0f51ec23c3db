// The records of a question: how many bytes each takes where it stands at the front of a slice, and what lies in them.
#![tactic(auto)]

pub mod field;
pub mod form;
pub mod lists;
pub mod plan;
pub mod question;
pub mod situation;
