// Exact answers.
ghost use Rattle.std.specs.Prelude.{◌<◌, ◌≤◌};

// The fraction top / bottom, as large as the exact answer of a question in range may be.
#[derive(Clone, Copy, Debug, PartialEq, Eq)]
pub struct Fraction {
    pub top: u32,
    pub bottom: u32,
    ghost above: { 0 < top },
    ghost held: { top ≤ 10000000 },
    ghost under: { 0 < bottom },
    ghost small: { bottom ≤ 1000 },
}
