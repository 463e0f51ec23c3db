// A float taken apart.
ghost use Rattle.std.specs.Prelude.{◌≡◌, ◌^◌, ◌<◌};

use super::codes::{MINUS_ZERO, NORMAL};

// The number ±digits * 2^power / 2^149.
#[derive(Clone, Copy, Debug, PartialEq, Eq)]
pub struct Parts {
    pub negative: bool,
    pub digits: u32,
    pub power: u32,
    ghost few: { digits < 2 ^ 24 },
}

impl Parts {
    ghost use Rattle.numeric.specs.Inner.{negative_of, digits_of, power_of};

    // A float's sign, digits and power of two, from its pattern: by hand, since std takes no float apart.
    pub(crate) fn of_pattern(pattern: u32) -> Parts
        ensures negative { result.negative ≡ negative_of pattern }
        ensures digits { result.digits ≡ digits_of pattern }
        ensures power { result.power ≡ power_of pattern }
    {
        let negative = MINUS_ZERO <= pattern;
        let field = pattern % MINUS_ZERO / NORMAL;
        if field == 0 {
            return Parts {
                negative,
                digits: pattern % NORMAL,
                power: 0,
            };
        }
        Parts {
            negative,
            digits: NORMAL + pattern % NORMAL,
            power: field - 1,
        }
    }
}
