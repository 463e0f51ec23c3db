// A situation in words, as one of its stations sees it: own, and the other. It is kept as A sees it.
#![tactic(auto)]

pub mod asked;
pub mod changed;
pub mod codes;
pub mod expected;
pub mod flags;
pub mod methods;
pub mod pending;
pub mod stations;
pub mod watch;

// The signals held towards B and towards A, by their sections.
#[derive(Clone, Copy, Debug, PartialEq, Eq)]
pub struct Signals {
    pub heldb: u64,
    pub helda: u64,
}

// What every event needs: the flags of both stations and of the line, a bit each, and the occupied sections. Beside it the signals.
// No equality is derived: words that differ in flags which say nothing are the same situation.
#[derive(Clone, Copy, Debug)]
pub struct Situation {
    pub flags: u64,
    pub occupied: u64,
    pub signals: Signals,
}

// A station's own flags, the lowest of the word.
#[derive(Clone, Copy, Debug)]
pub struct Station {
    pub flags: u64,
}
