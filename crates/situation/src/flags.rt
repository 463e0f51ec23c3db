// The flags of a situation, a bit each in one word: own's from 0, the other's from 16, the line's from 32. From bit 34 on stands the count.
ghost use Rattle.std.specs.Prelude.{◌≡◌, ℕ};
ghost use Rattle.sections.specs.Sections.{◌belongs_to◌};
ghost use Rattle.situation.specs.Packed.{bit_of, flagged, exchanged};

use sections::{has, with_section, without_section};

// Each stands at the bit of its number.
#[derive(Clone, Copy, Debug, PartialEq, Eq)]
pub(crate) enum Flag {
    Out = 0,
    Inward = 1,
    Afbli = 2,
    Afble = 3,
    Normal = 4,
    Special = 5,
    Entry = 6,
    Bilc = 7,
    Bslg = 8,
    Reminder = 9,
    Asks = 10,
    OtherOut = 16,
    OtherInward = 17,
    OtherAsks = 26,
    Link = 32,
    Mark = 33,
}

// The lowest of the count's four bits.
pub(crate) const COUNT: u64 = 1 << 34;

pub(crate) fn has_flag(flags: u64, flag: Flag) -> bool
    ensures { result ≡ (bit_of flag belongs_to flags) }
{
    has(flags, flag as u16)
}

// The flag set or cleared.
pub(crate) fn flagged(flags: u64, flag: Flag, v: bool) -> u64
    ensures { result ≡ flagged flags (bit_of flag) v }
{
    if v {
        with_section(flags, flag as u8)
    } else {
        without_section(flags, flag as u8)
    }
}

// Own's flags and the other's exchanged.
// Not a rotation: the compiler then computes it for both stations, whichever is asked.
#[tactic(auto, using(crate::proofs::Exchanged::swapped))]
pub(crate) fn exchanged(flags: u64) -> u64
    ensures { (j : ℕ) → (j belongs_to result) ≡ (exchanged j belongs_to flags) }
{
    let own = flags % 65536;
    let others = flags / 65536;
    (others / 65536 * 65536 + own) * 65536 + others % 65536
}
