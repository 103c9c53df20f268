// ln(Gamma(z + 1/2) / (sqrt(2 pi) z^z e^-z)) and what it is made of. Each function answers every f64.

#![tactic(auto)]

ghost use Rattle.std.specs.Prelude.{◌≡◌};
ghost use Rattle.gamma_ratio.specs.GammaRatio.{log1pmx, lgam_stirling_corr, ln_gamma_ratio};

use floats::polevl;
use signs::abs;

// The source's GAMMA_A: the coefficients of the correction to Stirling's formula, from the highest power of 1/x^2 down.
const GAMMA_A: [f64; 5] = [
    8.116_141_674_705_085e-4,
    -5.950_619_042_843_014e-4,
    7.936_503_404_577_169e-4,
    -2.777_777_777_300_997e-3,
    8.333_333_333_333_319e-2,
];

// ln(1 + w) - w by its series, for sizes of w below 0.5.
pub fn log1pmx(w: f64) -> f64
    ensures { result ≡ log1pmx w }
{
    let mut c = w;
    let mut sum = 0.0;
    for i in 2u32..500 {
        c *= -w;
        let term = c / f64::from(i);
        sum += term;
        if abs(term) < 1.1102230246251565e-16 * abs(sum) {
            return sum;
        }
    }
    sum
}

// The correction to Stirling's formula of ln(Gamma(x)), for x of 13 or more.
pub fn lgam_stirling_corr(x: f64) -> f64
    ensures { result ≡ lgam_stirling_corr x }
{
    polevl(&GAMMA_A, 1.0 / (x * x)) / x
}

// The logarithm of the ratio, for z of 20 or more.
pub fn ln_gamma_ratio(z: f64) -> f64
    ensures { result ≡ ln_gamma_ratio z }
{
    z * log1pmx(0.5 / z) + lgam_stirling_corr(z + 0.5)
}
