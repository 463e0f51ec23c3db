// A question, as values.
ghost use Rattle.std.specs.Prelude.{◌≡◌, ◌*◌, ◌/◌, ◌≤◌, length, take};
ghost use Rattle.questions.specs.InCode.{filled};

use block::line::Plan;
use records::lists::{EVENT, READING};
use situation::Situation;

// Items of so many bytes each, as many as are counted, and then zeros.
// Not a slice: a question is a value that outlives the bytes it was read from, and nothing here allocates.
#[derive(Clone, Copy)]
pub struct Items<const WIDTH: usize> {
    pub count: u8,
    pub bytes: [u8; 24],
}

// The permitted events, the readings that an answer must lead to, and how many events an answer may have.
#[derive(Clone, Copy)]
pub struct Question {
    pub plan: Plan,
    pub situation: Situation,
    pub events: Items<EVENT>,
    pub readings: Items<READING>,
    pub length: u8,
}

impl<const WIDTH: usize> Items<WIDTH> {
    // The items that lie in the bytes.
    pub(crate) fn new(s: &[u8]) -> Items<WIDTH>
        requires { (1 ≤ WIDTH) × (length s.now ≤ 24) }
        ensures { (result.count ≡ length s.now / WIDTH) × (result.bytes ≡ filled 24 s.now) }
    {
        let mut bytes = [0u8; 24];
        copying::copy(s, &mut bytes);
        Items {
            count: (s.len() / WIDTH) as u8,
            bytes,
        }
    }

    // The bytes of those that are counted.
    pub(crate) fn listed(&self) -> &[u8]
        requires { WIDTH * self.now.count ≤ 24 }
        ensures { result.now ≡ take (WIDTH * self.now.count) self.now.bytes }
    {
        &self.bytes[..WIDTH * usize::from(self.count)]
    }
}
