// A number typed in the unit asked: its exact answer, its model value, and how it is judged.
#![tactic(auto)]

pub mod codes;
pub mod exact;
pub mod judged;
pub mod nearest;
mod parts;
pub mod question;
mod scaled;

// What an answer is.
#[derive(Clone, Copy, Debug, PartialEq, Eq)]
pub enum Verdict {
    Wrong = 0,
    Right = 1,
    Blank = 2,
    OtherUnit = 3,
    NoNumber = 4,
}

// A sheet line: the number as given, the model value, the verdict and the signed error.
#[derive(Clone, Copy, Debug, PartialEq)]
pub struct Line {
    pub given: f32,
    pub model: f32,
    pub verdict: Verdict,
    pub error: i32,
}
