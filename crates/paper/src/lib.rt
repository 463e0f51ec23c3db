// A question, found where its bytes lie; a plan and a situation given apart.
#![tactic(auto)]

pub mod found;
pub mod given;
pub mod question;
