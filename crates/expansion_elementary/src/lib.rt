// D and its derivative at large negative orders, by the uniform expansions in elementary functions (DLMF 12.10.25 and
// 12.10.29), with a = -v - 1/2.

#![tactic(auto)]

ghost use Rattle.std.specs.Prelude.{◌≡◌};
ghost use Rattle.expansion_elementary.specs.Mantissas.{logarithm_of, exponent_of, weight, g_bar, mantissas};

use answer::Pair;
use expansion_polynomials::uv_sums;
use logarithm::ln;
use mul_exp::Mantissas;
use roots::square_root;

// ln(x/2 + s), without cancellation below 0.
#[tactic(auto, unfolding(crate::specs::Mantissas::logarithm_of))]
fn logarithm_of(a: f64, x: f64, s: f64) -> f64
    ensures { result ≡ logarithm_of a x s }
{
    if x >= 0.0 {
        ln(0.5 * x + s)
    } else {
        ln(a) - ln(s - 0.5 * x)
    }
}

// The exponent of both mantissas.
#[tactic(auto, unfolding(crate::specs::Mantissas::exponent_of))]
fn exponent_of(a: f64, x: f64, s: f64) -> f64
    ensures { result ≡ exponent_of a x s }
{
    -0.5 * x * s - a * logarithm_of(a, x, s) + 0.5 * a
}

// What the polynomials' sums are in powers of.
#[tactic(auto, unfolding(crate::specs::Mantissas::weight))]
fn weight(a: f64, t: f64) -> f64
    ensures { result ≡ weight a t }
{
    let q = t * t + 1.0;
    1.0 / (q * square_root(q) * (2.0 * a))
}

// The factor gbar (DLMF 12.10.28), up to what stands in the exponent.
#[tactic(auto, unfolding(crate::specs::Mantissas::g_bar))]
fn g_bar(a: f64) -> f64
    ensures { result ≡ g_bar a }
{
    1.0 + 0.5 * exponential::exp_m1(-gamma_ratio::ln_gamma_ratio(a))
}

// The expansion, for every f64: orders of -20 and below are those that it is made for. Far beyond a size of 1e9 of x
// the answers underflow or overflow, and so would the polynomials. The factor g comes first: the roots and sums do not
// wait for it.
pub fn pbdv_elementary(v: f64, x: f64) -> Mantissas
    ensures value { result.pair.value ≡ (mantissas v x).0 }
    ensures derivative { result.pair.derivative ≡ (mantissas v x).1 }
    ensures exponent { result.exponent ≡ (mantissas v x).2 }
{
    let a = -v - 0.5;
    let g = g_bar(a);
    let y = x.clamp(-1e9, 1e9);
    let s = square_root(0.25 * y * y + a);
    let exponent = exponent_of(a, y, s);
    let t = 0.5 * y / square_root(a);
    let sums = uv_sums(t, weight(a, t));
    Mantissas {
        pair: Pair {
            value: g * sums.u / square_root(2.0 * s),
            derivative: -g * sums.v * square_root(0.5 * s),
        },
        exponent,
    }
}
