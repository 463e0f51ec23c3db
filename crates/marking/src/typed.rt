// An answer as its unit byte and typed pattern, and a sheet line as its bytes.
ghost use Rattle.std.specs.Prelude.{◌≡◌, not, T, leb, is_some, IfSome};
ghost use Rattle.std.specs.Float.{binary32};
ghost use Rattle.std.specs.Float.Ieee.{of_bits, is_nan};
ghost use Rattle.numeric.specs.Told.{line_told};
ghost use Rattle.marking.specs.Typed.{answer_of, pattern_of, line_bytes};

use super::Answer;
use numeric::Line;
use std::num::f32_from_bits_with_nan;

// A sheet line's length.
pub(crate) const LINE: usize = 13;

// An answer as it is typed: its unit byte and its pattern, of any value, since the C interface hands them over.
#[derive(Clone, Copy, Debug, PartialEq, Eq)]
pub struct Typed {
    pub unit: u8,
    pub pattern: u32,
}

impl Typed {
    // The answer, if there is such a unit byte.
    pub fn answer(self) -> Option<Answer>
        ensures known { is_some result ≡ leb self.unit 2 }
        ensures same { IfSome result (λ a. a ≡ answer_of self.unit (of_bits binary32 self.pattern)) }
    {
        // Every NaN's pattern is the one NaN.
        let number = f32_from_bits_with_nan(self.pattern);
        match self.unit {
            0 => Some(Answer::Blank),
            1 => Some(Answer::Seconds(number)),
            2 => Some(Answer::Metres(number)),
            _ => None,
        }
    }

    // The pattern as typed; blank: that of +0.
    pub fn given(self) -> u32
        ensures { result ≡ pattern_of self.unit self.pattern }
    {
        if self.unit == 0 { 0 } else { self.pattern }
    }
}

// The line's bytes, the number's as they were typed. An array of its parts: nothing here grows.
pub(crate) fn line_bytes(pattern: u32, line: Line) -> [u8; LINE]
    requires { T (not (is_nan line.model)) }
    ensures { result ≡ line_bytes pattern (line_told line) }
{
    let [g0, g1, g2, g3] = pattern.to_le_bytes();
    let [m0, m1, m2, m3] = line.model.to_bits().to_le_bytes();
    let [e0, e1, e2, e3] = line.error.cast_unsigned().to_le_bytes();
    let verdict = line.verdict as u8;
    [g0, g1, g2, g3, m0, m1, m2, m3, verdict, e0, e1, e2, e3]
}
