// The codes of a station, orientation, annulment and exit route, as one number, and the sets of such numbers in which a code is the one
// asked.
ghost use Rattle.std.specs.Prelude.{◌≡◌};
ghost use Rattle.situation.specs.CodeSets.{own_codes, other_codes, for_value, where_orientation, where_annulment, where_exit};

use super::Situation;

// Own's and the other's are two methods: each is asked against a set of its own.
impl Situation {
    pub fn own_codes(self) -> u16
        ensures { result ≡ own_codes self }
    {
        (self.flags % 64) as u16
    }

    pub fn other_codes(self) -> u16
        ensures { result ≡ other_codes self }
    {
        (self.flags / 65536 % 64) as u16
    }
}

// A set for each of the values 0, 1 and 2; the value is any byte, and no code has another.
// A match, not three sets asked by index: the value is no index, but any byte.
pub fn for_value(zeros: u64, ones: u64, twos: u64, value: u8) -> u64
    ensures { result ≡ for_value zeros ones twos value }
{
    match value {
        0 => zeros,
        1 => ones,
        2 => twos,
        _ => 0,
    }
}

#[tactic(auto, unfolding(crate::specs::CodeSets::where_orientation))]
pub fn where_orientation(value: u8) -> u64
    ensures { result ≡ where_orientation value }
{
    for_value(
        0x1111111111111111,
        0xAAAAAAAAAAAAAAAA,
        0x4444444444444444,
        value,
    )
}

#[tactic(auto, unfolding(crate::specs::CodeSets::where_annulment))]
pub fn where_annulment(value: u8) -> u64
    ensures { result ≡ where_annulment value }
{
    for_value(
        0x000F000F000F000F,
        0xF0F0F0F0F0F0F0F0,
        0x0F000F000F000F00,
        value,
    )
}

#[tactic(auto, unfolding(crate::specs::CodeSets::where_exit))]
pub fn where_exit(value: u8) -> u64
    ensures { result ≡ where_exit value }
{
    for_value(
        0x000000000000FFFF,
        0xFFFF0000FFFF0000,
        0x0000FFFF00000000,
        value,
    )
}
