// SI, 19 bytes, or SJ, 21 bytes: the situation.
ghost use Rattle.std.specs.Prelude.{◌≡◌, ◌≤◌, IsTrue, length};
ghost use Rattle.forms.specs.Taken.{taken};
ghost use Rattle.forms.specs.Whole.{whole};
ghost use Rattle.records.specs.Situation.{situation};
ghost use Rattle.records.specs.Sizes.{IsExtent, is_accepted};

use super::form::stands;
use forms::Letters;

pub const SI: Letters = Letters {
    first: b'S',
    second: b'I',
};

pub const SJ: Letters = Letters {
    first: b'S',
    second: b'J',
};

// How many bytes SI has, and SJ, with their letters.
pub const SI_SIZE: usize = 21;

pub const SJ_SIZE: usize = 23;

// "SI means both zero": an SJ has a mark or a count.
pub fn take_situation(s: &[u8]) -> Option<usize>
    ensures { IsExtent (taken situation s.now) s.now result }
{
    if stands(s, SI, 19) {
        return Some(SI_SIZE);
    }
    if stands(s, SJ, 21) && ((s[21] != 0) | (s[22] != 0)) {
        return Some(SJ_SIZE);
    }
    None
}

// Whether the bytes are the record of a situation and nothing after it.
pub fn is_situation(bytes: &[u8]) -> bool
    ensures value { result ≡ is_accepted (whole situation bytes.now) }
    ensures long { IsTrue result → 21 ≤ length bytes.now }
{
    take_situation(bytes) == Some(bytes.len())
}
