// ln and pow: b = m 2^e with 1 ≤ m < 2, and the series of the logarithm at (m - 1) / (m + 1) from the inside out.

#![tactic(auto)]

ghost use Rattle.std.specs.Prelude.{◌≡◌, ◌<◌, pos, ◌-ℤ◌};
ghost use Rattle.logarithm.specs.Logarithm.{ln_sum, ln_near_one, ln_of_parts, ln, power};
ghost use Rattle.logarithm.specs.LnSteps.{ln_of_pattern};

use exponential::exp;
use std::f64::consts::SQRT_2;

// The series from the inside out, over 2g.
fn ln_sum(z: f64) -> f64
    ensures { result ≡ ln_sum z }
{
    let mut a = 0.0;
    for j in (0_u32..13).rev() {
        a = 1.0 / f64::from(2 * j + 1) + z * a;
    }
    a
}

// ln (m 2^e), for m near 1.
fn ln_near_one(m: f64, e: f64) -> f64
    ensures { result ≡ ln_near_one m e }
{
    let g = (m - 1.0) / (m + 1.0);
    2.0 * g * ln_sum(g * g) + e * 1.9082149292705877e-10 + e * 0.6931471803691238
}

// The exponent that a pattern's field stands for.
fn exponent(field: u16, bias: u16) -> i32
    ensures { result ≡ pos field -ℤ pos bias }
{
    i32::from(field) - i32::from(bias)
}

// ln (m 2^(field - bias)), for 1 ≤ m < 2.
#[tactic(auto, using(crate::proofs::LnCases::parts_laws))]
fn ln_of_parts(m: f64, field: u16, bias: u16) -> f64
    requires { field < 65535 }
    ensures { result ≡ ln_of_parts m (pos field -ℤ pos bias) }
{
    if m >= SQRT_2 {
        ln_near_one(m * 0.5, f64::from(exponent(field + 1, bias)))
    } else {
        ln_near_one(m, f64::from(exponent(field, bias)))
    }
}

// ln of the number with the pattern u, divided by 2^(bias - 1023).
#[tactic(auto, using(crate::proofs::LnCases::parts_laws))]
fn ln_of_pattern(u: u64, bias: u16) -> f64
    ensures { result ≡ ln_of_pattern u bias }
{
    ln_of_parts(
        f64::from_bits(u % 4503599627370496 + 4607182418800017408),
        (u / 4503599627370496) as u16,
        bias,
    )
}

// The natural logarithm of b. A subnormal's pattern is a whole number of the smallest values, 2^-1074 each.
#[tactic(auto, using(crate::proofs::LnCases::ln_laws))]
pub fn ln(b: f64) -> f64
    ensures { result ≡ ln b }
{
    if 0.0 < b && b < f64::INFINITY {
        let u = b.to_bits();
        if u < 4503599627370496 {
            ln_of_pattern((u as f64).to_bits(), 2097)
        } else {
            ln_of_pattern(u, 1023)
        }
    } else if b > 0.0 {
        b
    } else if b == 0.0 {
        f64::NEG_INFINITY
    } else {
        f64::NAN
    }
}

// b to the power p, and 1 for p = 0 whatever b is.
#[tactic(auto, using(crate::specs::Logarithm::Open::power_is))]
pub fn pow(b: f64, p: f64) -> f64
    ensures { result ≡ power b p }
{
    if p == 0.0 { 1.0 } else { exp(p * ln(b)) }
}
