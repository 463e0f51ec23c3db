// A number typed in the unit asked, judged against the exact answer.
ghost use Rattle.std.specs.Prelude.{◌≡◌, pos, ◌*◌, ◌^◌, ◌≤◌, if◌then◌else◌};
ghost use Rattle.numeric.specs.Exact.{signed, distance, below, ◌÷◌};
ghost use Rattle.numeric.specs.Nearest.{model_value};
ghost use Rattle.numeric.specs.Number.{number_verdict, line_at};
ghost use Rattle.numeric.specs.Told.{verdict_number, line_told};
ghost use Rattle.numeric.specs.Inner.{Cuts, value_of};

use super::codes::MOST;
use super::exact::Fraction;
use super::nearest::model_value;
pub use super::parts::Parts;
use super::scaled::scaled;
use super::{Line, Verdict};

// 1000 times the distance, as a multiple of 1 / bottom, cut down and cut up; and on which side the number lies.
#[derive(Clone, Copy, Debug, PartialEq, Eq)]
pub struct Gap {
    pub below: bool,
    pub low: u64,
    pub high: u64,
}

// How far the number lies from the exact answer.
fn gap_between(number: Parts, exact: Fraction) -> Gap
    ensures side { result.below ≡ below (exact.top ÷ exact.bottom) (value_of number) }
    ensures cuts { Cuts (2 ^ 43) (1000 * distance (exact.top ÷ exact.bottom) (value_of number)) (2 ^ 149) result.low result.high }
{
    let typed = scaled(
        1000 * u64::from(exact.bottom) * u64::from(number.digits),
        number.power,
    );
    let low = typed.low;
    let high = typed.high;
    let goal = 1000 * u64::from(exact.top);
    if number.negative {
        return Gap {
            below: true,
            low: low + goal,
            high: high + goal,
        };
    }
    if low < goal {
        return Gap {
            below: true,
            low: goal - high,
            high: goal - low,
        };
    }
    Gap {
        below: false,
        low: low - goal,
        high: high - goal,
    }
}

// A whole number with a sign.
fn with_sign(negative: bool, n: u32) -> i32
    requires { n ≤ 1000000 }
    ensures { result ≡ signed negative n }
{
    let n = n.cast_signed();
    if negative { -n } else { n }
}

// Not a From: a bool tells two of the five verdicts apart.
fn verdict(right: bool) -> Verdict
    ensures { verdict_number result ≡ (if right then 1 else 0) }
{
    if right {
        Verdict::Right
    } else {
        Verdict::Wrong
    }
}

impl Fraction {
    // The line of an answer that is not compared: its error is zero.
    pub fn unjudged_line(self, verdict: Verdict, given: f32) -> Line
        ensures { line_told result ≡ record { given = given; model = model_value (self.top ÷ self.bottom); verdict = verdict_number verdict; error = pos 0 } }
    {
        Line {
            given,
            model: model_value(self),
            verdict,
            error: 0,
        }
    }

    // The line of a number typed in the unit asked.
    pub fn number_line(self, tolerance: u32, given: f32) -> Line
        requires { tolerance ≤ 10000 }
        ensures { line_told result ≡ line_at (number_verdict (self.top ÷ self.bottom) tolerance given) (self.top ÷ self.bottom) given }
    {
        if !given.is_finite() {
            return self.unjudged_line(Verdict::NoNumber, given);
        }
        let model = model_value(self);
        let pattern = given.to_bits();
        let gap = gap_between(Parts::of_pattern(pattern), self);
        let bottom = u64::from(self.bottom);
        let slack = u64::from(tolerance) * bottom;
        let miss = (gap.low / bottom).min(u64::from(MOST)) as u32;
        let verdict = verdict(gap.high <= slack);
        let error = with_sign(gap.below, miss);
        Line {
            given,
            model,
            verdict,
            error,
        }
    }
}
