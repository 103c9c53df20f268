// m * e^e without spurious overflow or underflow of e^e. Each function answers every f64.

#![tactic(auto)]

ghost use Rattle.std.specs.Prelude.{◌≡◌};
ghost use Rattle.mul_exp.specs.MulExp.{mul_exp};

use answer::Pair;
use exponential::exp;
use signs::abs;

// A value and a derivative as mantissas with one exponent: each is its mantissa times e^exponent.
#[derive(Clone, Copy)]
pub struct Mantissas {
    pub pair: Pair,
    pub exponent: f64,
}

// m * e^e: m * h * h with h = e^(e/2), which is a normal float up to a size of 1400; beyond it e^(ln|m| + e) with the
// sign of m.
#[tactic(auto, using(crate::specs::MulExp::Open::beyond, crate::specs::MulExp::Open::within))]
pub fn mul_exp(m: f64, e: f64) -> f64
    ensures { result ≡ mul_exp m e }
{
    if abs(e) > 1400.0 {
        signs::signum(m) * exp(logarithm::ln(abs(m)) + e)
    } else {
        let h = exp(0.5 * e);
        m * h * h
    }
}

// Both numbers, each its mantissa times e^exponent, with one exponential where they are products.
#[tactic(auto, using(crate::specs::MulExp::Open::beyond, crate::specs::MulExp::Open::within))]
pub fn mul_exp_both(m: Mantissas) -> Pair
    ensures value { result.value ≡ mul_exp m.pair.value m.exponent }
    ensures derivative { result.derivative ≡ mul_exp m.pair.derivative m.exponent }
{
    let Mantissas { pair, exponent } = m;
    if abs(exponent) > 1400.0 {
        Pair {
            value: mul_exp(pair.value, exponent),
            derivative: mul_exp(pair.derivative, exponent),
        }
    } else {
        let h = exp(0.5 * exponent);
        Pair {
            value: pair.value * h * h,
            derivative: pair.derivative * h * h,
        }
    }
}
