// The model value.
ghost use Rattle.std.specs.Prelude.{◌≡◌};
ghost use Rattle.numeric.specs.Exact.{◌÷◌};
ghost use Rattle.numeric.specs.Nearest.{model_value};

use super::exact::Fraction;

// One division of two whole numbers that an f32 holds.
#[tactic(auto, using(crate::proofs::Quotient::quotient))]
pub fn model_value(exact: Fraction) -> f32
    ensures { result ≡ model_value (exact.top ÷ exact.bottom) }
{
    // `as`, since f32 has no From of u32; both casts are proved to lose nothing.
    exact.top as f32 / exact.bottom as f32
}
