// dvla and vvla: D and V of the order va at a large argument x, by their expansions there. Each answers every f64.
//
// Method (DLMF 12.9.1 and 12.9.2), over k = 0 to 16 for D and to 18 for V,
//     D:  |x|^va e^(-x²/4) · Σ (-1)^k (-va)(1 - va)..(2k - 1 - va) / (k! (2x²)^k)
//     V:  √(2/π) |x|^(-va - 1) e^(x²/4) · Σ (va + 1)(va + 2)..(va + 2k) / (k! (2x²)^k)
// A sum stops after a term below 1e-12 of it. At x < 0, with P and Q the same expansions of D and V (12.2.15, 12.2.16),
//     D:  π vvla(-x, va) / Γ(-va) + cos(π va) P
//     V:  sin²(π va) Γ(-va) / π · dvla(-x, va) - cos(π va) Q
// so that each needs the other at -x. Γ is gamma2, which answers 1e300 at poles.
//
// Tables take dvla beyond a size of x of 5.8 and vvla beyond 7.5.

#![tactic(auto)]

ghost use Rattle.std.specs.Prelude.{◌≡◌, Float};
ghost use Rattle.start_sums_large.specs.StartSums.{Computes, expansion_sum};
ghost use Rattle.start_sums_large.specs.StartSums.{dvla_sum, dvla_expansion, dvla_joined, dvla, vvla_sum};
ghost use Rattle.start_sums_large.specs.StartSums.{vvla_expansion, vvla_joined, vvla};

use exponential::exp;
use gamma::gamma2;
use logarithm::pow;
use signs::abs;
use std::f64::consts::PI;
use trigonometric::{cos, sin};

// The source's constant, under its name; the library has none.
pub const SQRT_FRAC_2_PI: f64 = 0.7978845608028654;

// The sum of an expansion, of at most `count` terms after the first. Term k is `next` of k and the term before it.
fn expansion_sum<F: Fn(f64, f64) -> f64>(count: u32, next: F) -> f64
    requires { F.IsAlwaysCallable next }
    ensures { (by : Float → Float → Float) → Computes (F.post next) by → result ≡ (expansion_sum by count).1 }
{
    let mut r = 1.0;
    let mut sum = 1.0;
    for k in 1..=count {
        r = next(f64::from(k), r);
        sum += r;
        if abs(r / sum) < 1e-12 {
            return sum;
        }
    }
    sum
}

// The sum of D's expansion.
#[tactic(auto, unfolding(crate::specs::StartSums::dvla_sum))]
fn dvla_sum(x: f64, va: f64) -> f64
    ensures { result ≡ (dvla_sum x va).1 }
{
    expansion_sum(16, |kf, r| {
        -0.5 * r * (2.0 * kf - va - 1.0) * (2.0 * kf - va - 2.0) / (kf * x * x)
    })
}

// The sum of V's expansion.
#[tactic(auto, unfolding(crate::specs::StartSums::vvla_sum))]
fn vvla_sum(x: f64, va: f64) -> f64
    ensures { result ≡ (vvla_sum x va).1 }
{
    expansion_sum(18, |kf, r| {
        0.5 * r * (2.0 * kf + va - 1.0) * (2.0 * kf + va) / (kf * x * x)
    })
}

// D's expansion, for an argument of either sign.
#[tactic(auto, unfolding(crate::specs::StartSums::dvla_expansion))]
fn dvla_expansion(x: f64, va: f64) -> f64
    ensures { result ≡ dvla_expansion x va }
{
    let a0 = pow(abs(x), va) * exp(-0.25 * x * x);
    dvla_sum(x, va) * a0
}

// V's expansion, for an argument of either sign.
#[tactic(auto, unfolding(crate::specs::StartSums::vvla_expansion))]
fn vvla_expansion(x: f64, va: f64) -> f64
    ensures { result ≡ vvla_expansion x va }
{
    let a0 = pow(abs(x), -va - 1.0) * SQRT_FRAC_2_PI * exp(0.25 * x * x);
    vvla_sum(x, va) * a0
}

// D at a negative argument: pd is its expansion there, vl is V at the positive one.
#[tactic(auto, unfolding(crate::specs::StartSums::dvla_joined))]
fn dvla_joined(va: f64, pd: f64, vl: f64) -> f64
    ensures { result ≡ dvla_joined va pd vl }
{
    PI * vl / gamma2(-va) + cos(PI * va) * pd
}

// V at a negative argument: pv is its expansion there, pdl is D at the positive one.
#[tactic(auto, unfolding(crate::specs::StartSums::vvla_joined))]
fn vvla_joined(va: f64, pv: f64, pdl: f64) -> f64
    ensures { result ≡ vvla_joined va pv pdl }
{
    let s = sin(PI * va);
    let dsl = s * s;
    dsl * gamma2(-va) / PI * pdl - cos(PI * va) * pv
}

// D for large arguments. D and V are two formulas that call each other, and no instances of one.
#[cycle(dvla_vvla)]
#[tactic(auto, using(crate::proofs::Counts::falls, crate::specs::StartSums::Open::dvla_cases))]
pub fn dvla(x: f64, va: f64) -> f64
    ensures { result ≡ dvla x va }
{
    let pd = dvla_expansion(x, va);
    if x < 0.0 {
        return dvla_joined(va, pd, vvla(-x, va));
    }
    pd
}

// V for large arguments.
#[cycle(dvla_vvla)]
#[tactic(auto, using(crate::proofs::Counts::falls, crate::specs::StartSums::Open::vvla_cases))]
pub fn vvla(x: f64, va: f64) -> f64
    ensures { result ≡ vvla x va }
{
    let pv = vvla_expansion(x, va);
    if x < 0.0 {
        return vvla_joined(va, pv, dvla(-x, va));
    }
    pv
}
