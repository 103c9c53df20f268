// gamma2: whole numbers by their product, all others by the series of 1/Γ at the fraction, the recurrence of Γ, and
// below -1 the reflection.

#![tactic(auto)]

ghost use Rattle.std.specs.Prelude.{◌≡◌, ℕ, Float};
ghost use Rattle.std.specs.Float.Ieee.{to_signed};
ghost use Rattle.gamma.specs.Gamma.{last_of, Computes, product, factorial, falling, reciprocal_series};
ghost use Rattle.gamma.specs.Gamma.{gamma_near, gamma_above, gamma2};

use floats::polevl;
use signs::{abs, is_infinite};
use std::f64::consts::PI;
use trigonometric::sin;

// The source's table G: the coefficients of 1/Γ (DLMF 5.7.1), from the highest power down.
const COEFFICIENTS: [f64; 26] = [
    0.1000000000000000e-15,
    0.1400000000000000e-14,
    -0.5400000000000000e-14,
    -0.2060000000000000e-13,
    0.5100000000000000e-12,
    -0.3696800000000000e-11,
    0.7782300000000000e-11,
    0.1043427000000000e-09,
    -0.1181274600000000e-08,
    0.5002007500000000e-08,
    0.6116095000000000e-08,
    -0.2056338417000000e-06,
    0.1133027232000000e-05,
    -0.1250493482100000e-05,
    -0.2013485478070000e-04,
    0.1280502823882000e-03,
    -0.2152416741149000e-03,
    -0.1165167591859100e-02,
    0.7218943246663000e-02,
    -0.9621971527877000e-02,
    -0.4219773455554430e-01,
    0.1665386113822915e+00,
    -0.4200263503409520e-01,
    -0.6558780715202538e+00,
    0.5772156649015329e+00,
    1.0000000000000000e+00,
];

// The last k of a loop that counts up to y as an i32.
fn last_factor(y: f64) -> u32
    ensures { result ≡ last_of (to_signed 31 y) }
{
    truncation::to_i32(y).max(0) as u32
}

// The product of the factors of `first` to `last`, or the first infinite product.
fn product<F: Fn(u32) -> f64>(first: u32, last: u32, factor: F) -> f64
    requires { F.IsAlwaysCallable factor }
    ensures { (by : ℕ → Float) → Computes (F.post factor) by → result ≡ product by first last }
{
    let mut value = 1.0;
    for k in first..=last {
        value *= factor(k);
        if is_infinite(value) {
            return value;
        }
    }
    value
}

// 2 * 3 * .. * m, or the first infinite product.
#[tactic(auto, unfolding(crate::specs::Gamma::factorial))]
fn factorial(m: u32) -> f64
    ensures { result ≡ factorial m }
{
    product(2, m, f64::from)
}

// (z - 1) * (z - 2) * .. * (z - m), or the first infinite product.
#[tactic(auto, unfolding(crate::specs::Gamma::falling))]
fn falling(z: f64, m: u32) -> f64
    ensures { result ≡ falling z m }
{
    product(1, m, |k| z - f64::from(k))
}

// The series of 1/Γ(z), divided by z.
fn reciprocal_series(z: f64) -> f64
    ensures { result ≡ reciprocal_series z }
{
    polevl(&COEFFICIENTS, z)
}

// Γ(z) for a size of z up to 1.
#[tactic(auto, unfolding(crate::specs::Gamma::gamma_near))]
fn gamma_near(z: f64) -> f64
    ensures { result ≡ gamma_near z }
{
    1.0 / (reciprocal_series(z) * z)
}

// Γ(z) for z above 1.
#[tactic(auto, unfolding(crate::specs::Gamma::gamma_above))]
fn gamma_above(z: f64) -> f64
    ensures { result ≡ gamma_above z }
{
    gamma_near(truncation::fract(z)) * falling(z, last_factor(z))
}

// Γ(x); 1e300 at its poles and at minus infinity.
pub fn gamma2(x: f64) -> f64
    ensures { result ≡ gamma2 x }
{
    if x == truncation::trunc(x) {
        return if x > 0.0 {
            factorial(last_factor(x - 1.0))
        } else {
            1e300
        };
    }
    let z = abs(x);
    if z > 1.0 {
        let ga = gamma_above(z);
        if x < 0.0 {
            -PI / (x * ga * sin(PI * x))
        } else {
            ga
        }
    } else {
        gamma_near(x)
    }
}
