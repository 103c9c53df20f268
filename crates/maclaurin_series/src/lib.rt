// w(x) and w'(x) by the Maclaurin series of w'' = (x^2/4 + a) w (DLMF 12.2.2), with w(0) and w'(0) as mantissas with
// one exponent.

#![tactic(auto)]

ghost use Rattle.std.specs.Prelude.{◌≡◌};
ghost use Rattle.maclaurin_series.specs.Series.{series, short_form, pb_maclaurin};

use answer::Pair;
use extremes::{max, min};
use mul_exp::{Mantissas, mul_exp_both};
use signs::abs;
use std::f64::consts::LN_2;

// 2^600, the source's pow2(600).
const SCALE: f64 = 4.149515568880993e180;

// The sums of the series that starts with w(0) and w'(0), of at most 60 steps. b has the coefficients of x^(n-2) to
// x^(n+1), xn is x^(n+1), and prev the size of the last term of the derivative.
fn series(a: f64, x: f64, start: Pair) -> Pair
    ensures value { result.value ≡ (series a x start.value start.derivative).4 }
    ensures derivative { result.derivative ≡ (series a x start.value start.derivative).5 }
{
    let size = abs(x);
    let mut b = [0.0, 0.0, start.value, start.derivative];
    let mut value = start.value + start.derivative * x;
    let mut derivative = start.derivative;
    let mut xn = x;
    let mut prev = f64::INFINITY;
    for n in 0u32..60 {
        let nf = f64::from(n);
        let next = (a * b[2] + 0.25 * b[0]) / ((nf + 1.0) * (nf + 2.0));
        b = [b[1], b[2], b[3], next];
        let term = (nf + 2.0) * next * xn;
        derivative += term;
        xn *= x;
        value += next * xn;
        let last = abs(term);
        if max(last, prev) <= 1e-17 * min(abs(derivative), abs(value) / size) {
            break;
        }
        prev = last;
    }
    Pair { value, derivative }
}

// The linear terms alone, scaled by 2^600 so that x * 2^600 is no subnormal.
#[tactic(auto, unfolding(crate::specs::Series::short_form))]
fn short_form(a: f64, x: f64, start: Mantissas) -> Pair
    ensures value { result.value
        ≡ (short_form a x start.pair.value start.pair.derivative start.exponent).0 }
    ensures derivative { result.derivative
        ≡ (short_form a x start.pair.value start.pair.derivative start.exponent).1 }
{
    let Mantissas { pair, exponent } = start;
    let xk = x * SCALE;
    mul_exp_both(Mantissas {
        pair: Pair {
            value: pair.value * SCALE + pair.derivative * xk,
            derivative: pair.derivative * SCALE + a * pair.value * xk,
        },
        exponent: exponent - 600.0 * LN_2,
    })
}

// w(x) and w'(x), for every f64.
#[tactic(auto, using(crate::specs::Series::Open::short, crate::specs::Series::Open::long))]
pub fn pb_maclaurin(a: f64, x: f64, start: Mantissas) -> Pair
    ensures value { result.value
        ≡ (pb_maclaurin a x start.pair.value start.pair.derivative start.exponent).0 }
    ensures derivative { result.derivative
        ≡ (pb_maclaurin a x start.pair.value start.pair.derivative start.exponent).1 }
{
    if abs(x) < 1e-150 {
        short_form(a, x, start)
    } else {
        mul_exp_both(Mantissas {
            pair: series(a, x, start.pair),
            ..start
        })
    }
}
