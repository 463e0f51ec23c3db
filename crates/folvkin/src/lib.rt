// The interface for other languages: numbers and byte slices. Every call takes anything and answers its result or one refusal number.
#![tactic(auto)]

pub mod block_calls;
pub mod marking_calls;
pub mod question_calls;
