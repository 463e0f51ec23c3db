// The rules of a question: its events, tried by their places, what its readings ask, and a candidate's run over them. The question is judged
// already.
#![tactic(auto)]

pub mod run;
pub mod wanted;
