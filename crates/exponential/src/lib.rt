// exp, exp2 and exp_m1: y = k ln 2 + r, the series of the exponential at r from the inside out, times 2^k.

#![tactic(auto)]

ghost use Rattle.std.specs.Prelude.{◌≡◌, ◌≤◌};
ghost use Rattle.std.specs.Int.Signed.{mag};
ghost use Rattle.exponential.specs.Exponential.{power_of_two, scaled, exp_sum, exp, exp2, exp_m1};

use near::near;
use std::f64::consts::{LN_2, LOG2_E};

// 2^h, by its bit pattern.
#[tactic(auto, using(crate::proofs::PowersOfTwo::power_laws))]
fn power_of_two(h: i32) -> f64
    requires { mag h ≤ 1021 }
    ensures { result ≡ power_of_two h }
{
    f64::from_bits(((h + 1023) as u64) * 4503599627370496)
}

// p 2^k, in two factors: 2^k alone may be no float.
#[tactic(auto, using(crate::proofs::Cases::scaled_laws))]
fn scaled(p: f64, k: i32) -> f64
    requires { mag k ≤ 1081 }
    ensures { result ≡ scaled p k }
{
    let h = k / 2;
    p * power_of_two(h) * power_of_two(k - h)
}

// The series from the inside out, with 16 to `last` as divisors, so `last` is a number.
fn exp_sum(r: f64, last: u32) -> f64
    requires { last ≤ 2 }
    ensures { result ≡ exp_sum r last }
{
    let mut p = 1.0;
    for j in (last..17).rev() {
        p = 1.0 + r * p / f64::from(j);
    }
    p
}

// e^y.
#[tactic(auto, using(crate::proofs::Cases::exp_laws))]
pub fn exp(y: f64) -> f64
    ensures { result ≡ exp y }
{
    if y.is_nan() {
        y
    } else if y > 709.782712893384 {
        f64::INFINITY
    } else if y < -745.2 {
        0.0
    } else {
        let k = near(y * LOG2_E);
        let f = f64::from(k);
        let r = y - f * 0.6931471803691238 - f * 1.9082149292705877e-10;
        scaled(exp_sum(r, 1), k)
    }
}

// 2^y.
#[tactic(auto, using(crate::proofs::Cases::exp2_laws))]
pub fn exp2(y: f64) -> f64
    ensures { result ≡ exp2 y }
{
    if y.is_nan() {
        y
    } else if y >= 1024.0 {
        f64::INFINITY
    } else if y < -1080.0 {
        0.0
    } else {
        let k = near(y);
        scaled(exp_sum((y - f64::from(k)) * LN_2, 1), k)
    }
}

// e^y - 1, by the series itself up to size 0.5.
#[tactic(auto, using(crate::specs::Exponential::Open::exp_m1_is))]
pub fn exp_m1(y: f64) -> f64
    ensures { result ≡ exp_m1 y }
{
    if y > 0.5 || y < -0.5 {
        exp(y) - 1.0
    } else {
        y * exp_sum(y, 2)
    }
}
