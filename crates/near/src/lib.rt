// 01's near.

#![tactic(auto)]

ghost use Rattle.std.specs.Prelude.{◌≡◌};
ghost use Rattle.near.specs.Near.{near};

// The nearest whole number: t + 0.5 (t - 0.5 below 0) cut towards zero.
#[tactic(auto, unfolding(crate::specs::Near::near))]
pub fn near(t: f64) -> i32
    ensures { result ≡ near t }
{
    if t >= 0.0 {
        truncation::to_i32(t + 0.5)
    } else {
        truncation::to_i32(t - 0.5)
    }
}
