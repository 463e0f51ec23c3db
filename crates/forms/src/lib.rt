// Forms of bytes, and how they compose: definitions and laws. Of code only the letters that a record begins with.
#![tactic(auto)]

#[derive(Clone, Copy)]
pub struct Letters {
    pub first: u8,
    pub second: u8,
}
