// Minimum and maximum. Each function answers every f64.

#![tactic(auto)]

ghost use Rattle.std.specs.Prelude.{◌≡◌};
ghost use Rattle.extremes.specs.Extremes.{lesser, greater};

// The library's `min` and `max` do not say which of two equal operands, as 0 and -0, they give: these give the first.
// The two are twins in one comparison alone: one function that takes the test would be longer than both.

// The smaller operand, or the other one where one is NaN.
#[tactic(auto, unfolding(crate::specs::Extremes::lesser))]
pub fn min(a: f64, b: f64) -> f64
    ensures { result ≡ lesser a b }
{
    if a.is_nan() || b < a { b } else { a }
}

// The larger operand, or the other one where one is NaN.
#[tactic(auto, unfolding(crate::specs::Extremes::greater))]
pub fn max(a: f64, b: f64) -> f64
    ensures { result ≡ greater a b }
{
    if a.is_nan() || a < b { b } else { a }
}
