// dvsa and vvsa: D and V of the order va at a small argument x, by their series at 0. Each answers every f64.
//
// Method (DLMF 12.4.1 and 12.4.2, with the values at 0, 12.2.6 to 12.2.9). With t(m) = (√2 x)^m / m!, over m = 0 to
// 250,
//     D:  2^(-va/2 - 1) e^(-x²/4) / Γ(-va) · Σ (-1)^m Γ((m - va)/2) t(m)
//     V:  2^(-va/2) e^(-x²/4) / (2π) · Σ (1 + (-1)^m sin(-(va + 1/2) π)) Γ((m - va)/2) t(m)
// A sum stops after a term below 1e-15 of it; V's test leaves the weight 1 ± sin out.
//     x = 0:  D is √π / (2^(-va/2) Γ((1 - va)/2)), and 0 where that Γ has a pole;
//             V is 2^(-va/2) sin((1 + va/2) π) / Γ(1 + va/2), and 0 where va is 0 or that Γ has a pole
//     va = 0: D is e^(-x²/4)
// Γ is gamma2, which answers 1e300 at poles: at whole orders the weight of such a term of V is exactly 0.
//
// Tables take dvsa up to a size of x of 5.8 and vvsa up to 7.5, and vvsa for the top rungs of V up to 10.

#![tactic(auto)]

ghost use Rattle.std.specs.Prelude.{◌≡◌};
ghost use Rattle.start_sums_small.specs.SmallSums.{is_pole, dvsa_at_zero, dvsa_sum, dvsa, vvsa_at_zero, vvsa_sum, vvsa};

use exponential::{exp, exp2};
use gamma::gamma2;
use signs::abs;
use std::f64::consts::{PI, SQRT_2, TAU};
use trigonometric::sin;

// The source's constant, under its name: the float below the one that is nearest to √π.
const SQRT_PI: f64 = 1.7724538509055159;

// Whether y is 0 or a negative whole number of i32's range.
#[tactic(auto, unfolding(crate::specs::SmallSums::is_pole))]
fn is_pole(y: f64) -> bool
    ensures { result ≡ is_pole y }
{
    y <= 0.0 && y == f64::from(truncation::to_i32(y))
}

// D at x = 0.
#[tactic(auto, unfolding(crate::specs::SmallSums::dvsa_at_zero))]
fn dvsa_at_zero(va: f64) -> f64
    ensures { result ≡ dvsa_at_zero va }
{
    let va0 = 0.5 * (1.0 - va);
    if is_pole(va0) {
        return 0.0;
    }
    SQRT_PI / (exp2(-0.5 * va) * gamma2(va0))
}

// The series of D, from its first term g0.
// Of dvsa and vvsa each has a term, a state and a test of its own: one loop over a closure is no plainer.
#[tactic(auto, using(floats::proofs::Loops::done), unfolding(crate::specs::SmallSums::dvsa_sum))]
fn dvsa_sum(x: f64, va: f64, g0: f64) -> f64
    ensures { result ≡ (dvsa_sum x va g0).1 }
{
    let mut pd = g0;
    let mut r = 1.0;
    for m in 1..=250u32 {
        let mf = f64::from(m);
        let gm = gamma2(0.5 * (mf - va));
        r = -r * SQRT_2 * x / mf;
        let r1 = gm * r;
        pd += r1;
        if abs(r1) < abs(pd) * 1e-15 {
            return pd;
        }
    }
    pd
}

// D for small arguments.
#[tactic(auto, using(crate::specs::SmallSums::Open::dvsa_cases))]
pub fn dvsa(x: f64, va: f64) -> f64
    ensures { result ≡ dvsa x va }
{
    if va == 0.0 {
        return exp(-0.25 * x * x);
    }
    if x == 0.0 {
        return dvsa_at_zero(va);
    }
    let a0 = exp2(-0.5 * va - 1.0) * exp(-0.25 * x * x) / gamma2(-va);
    dvsa_sum(x, va, gamma2(-0.5 * va)) * a0
}

// V at x = 0.
#[tactic(auto, unfolding(crate::specs::SmallSums::vvsa_at_zero))]
fn vvsa_at_zero(va: f64) -> f64
    ensures { result ≡ vvsa_at_zero va }
{
    let va0 = 1.0 + 0.5 * va;
    if is_pole(va0) || va == 0.0 {
        return 0.0;
    }
    exp2(-0.5 * va) * sin(va0 * PI) / gamma2(va0)
}

// The series of V, from its first term pv0. The stop test leaves the weight out.
#[tactic(auto, using(floats::proofs::Loops::done), unfolding(crate::specs::SmallSums::vvsa_sum))]
fn vvsa_sum(x: f64, va: f64, sv: f64, pv0: f64) -> f64
    ensures { result ≡ (vvsa_sum x va sv pv0).2 }
{
    let mut pv = pv0;
    let mut r = 1.0;
    let mut fac = 1.0;
    for m in 1u32..=250 {
        let mf = f64::from(m);
        let gm = gamma2(0.5 * (mf - va));
        r = r * SQRT_2 * x / mf;
        fac = -fac;
        let gw = fac * sv + 1.0;
        pv += gw * r * gm;
        if abs(r * gm / pv) < 1e-15 {
            return pv;
        }
    }
    pv
}

// V for small arguments.
#[tactic(auto, using(crate::specs::SmallSums::Open::vvsa_cases))]
pub fn vvsa(x: f64, va: f64) -> f64
    ensures { result ≡ vvsa x va }
{
    if x == 0.0 {
        return vvsa_at_zero(va);
    }
    let a0 = exp2(-0.5 * va) * exp(-0.25 * x * x) / TAU;
    let sv = sin(-(va + 0.5) * PI);
    vvsa_sum(x, va, sv, (sv + 1.0) * gamma2(-0.5 * va)) * a0
}
