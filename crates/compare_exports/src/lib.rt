// The functions below the C interface that compare/ holds to the Rust, each under a C name of its own. Each only calls
// the function that it is named after.

#![tactic(auto)]

mod expansion_calls;

ghost use Rattle.std.specs.Prelude.{◌≡◌};
ghost use Rattle.std.specs.Float.Ieee.{is_nan, to_signed};
ghost use Rattle.signs.specs.Signs.{alike, absolute, infinite, sign_of};
ghost use Rattle.truncation.specs.Truncation.{truncated, fraction};
ghost use Rattle.extremes.specs.Extremes.{lesser, greater};
ghost use Rattle.exponential.specs.Exponential.{exp, exp2, exp_m1};
ghost use Rattle.logarithm.specs.Logarithm.{ln, power};
ghost use Rattle.trigonometric.specs.Trigonometric.{sin, cos};
ghost use Rattle.roots.specs.SquareRoot.{square_root};
ghost use Rattle.gamma.specs.Gamma.{gamma2};
ghost use Rattle.start_sums_small.specs.SmallSums.{dvsa, vvsa};
ghost use Rattle.start_sums_large.specs.StartSums.{dvla, vvla};

#[unsafe(no_mangle)]
pub extern "C" fn compared_abs(x: f64) -> f64
    ensures { result ≡ absolute x }
{
    signs::abs(x)
}

#[unsafe(no_mangle)]
pub extern "C" fn compared_is_nan(x: f64) -> bool
    ensures { result ≡ is_nan x }
{
    x.is_nan()
}

#[unsafe(no_mangle)]
pub extern "C" fn compared_is_infinite(x: f64) -> bool
    ensures { result ≡ infinite x }
{
    signs::is_infinite(x)
}

#[unsafe(no_mangle)]
pub extern "C" fn compared_to_i32(x: f64) -> i32
    ensures { result ≡ to_signed 31 x }
{
    truncation::to_i32(x)
}

#[unsafe(no_mangle)]
pub extern "C" fn compared_trunc(x: f64) -> f64
    ensures { result ≡ truncated x }
{
    truncation::trunc(x)
}

#[unsafe(no_mangle)]
pub extern "C" fn compared_fract(x: f64) -> f64
    ensures { result ≡ fraction x }
{
    truncation::fract(x)
}

#[unsafe(no_mangle)]
pub extern "C" fn compared_min(a: f64, b: f64) -> f64
    ensures { result ≡ lesser a b }
{
    extremes::min(a, b)
}

#[unsafe(no_mangle)]
pub extern "C" fn compared_max(a: f64, b: f64) -> f64
    ensures { result ≡ greater a b }
{
    extremes::max(a, b)
}

#[unsafe(no_mangle)]
pub extern "C" fn compared_signum(x: f64) -> f64
    ensures { result ≡ sign_of x }
{
    signs::signum(x)
}

#[unsafe(no_mangle)]
pub extern "C" fn compared_alike(a: f64, b: f64) -> bool
    ensures { result ≡ alike a b }
{
    signs::alike(a, b)
}

#[unsafe(no_mangle)]
pub extern "C" fn compared_exp(y: f64) -> f64
    ensures { result ≡ exp y }
{
    exponential::exp(y)
}

#[unsafe(no_mangle)]
pub extern "C" fn compared_exp2(y: f64) -> f64
    ensures { result ≡ exp2 y }
{
    exponential::exp2(y)
}

#[unsafe(no_mangle)]
pub extern "C" fn compared_exp_m1(y: f64) -> f64
    ensures { result ≡ exp_m1 y }
{
    exponential::exp_m1(y)
}

#[unsafe(no_mangle)]
pub extern "C" fn compared_ln(b: f64) -> f64
    ensures { result ≡ ln b }
{
    logarithm::ln(b)
}

#[unsafe(no_mangle)]
pub extern "C" fn compared_pow(b: f64, p: f64) -> f64
    ensures { result ≡ power b p }
{
    logarithm::pow(b, p)
}

#[unsafe(no_mangle)]
pub extern "C" fn compared_sin(y: f64) -> f64
    ensures { result ≡ sin y }
{
    trigonometric::sin(y)
}

#[unsafe(no_mangle)]
pub extern "C" fn compared_cos(y: f64) -> f64
    ensures { result ≡ cos y }
{
    trigonometric::cos(y)
}

#[unsafe(no_mangle)]
pub extern "C" fn compared_square_root(x: f64) -> f64
    ensures { result ≡ square_root x }
{
    roots::square_root(x)
}

#[unsafe(no_mangle)]
pub extern "C" fn compared_gamma2(x: f64) -> f64
    ensures { result ≡ gamma2 x }
{
    gamma::gamma2(x)
}

#[unsafe(no_mangle)]
pub extern "C" fn compared_dvsa(x: f64, va: f64) -> f64
    ensures { result ≡ dvsa x va }
{
    start_sums_small::dvsa(x, va)
}

#[unsafe(no_mangle)]
pub extern "C" fn compared_dvla(x: f64, va: f64) -> f64
    ensures { result ≡ dvla x va }
{
    start_sums_large::dvla(x, va)
}

#[unsafe(no_mangle)]
pub extern "C" fn compared_vvsa(x: f64, va: f64) -> f64
    ensures { result ≡ vvsa x va }
{
    start_sums_small::vvsa(x, va)
}

#[unsafe(no_mangle)]
pub extern "C" fn compared_vvla(x: f64, va: f64) -> f64
    ensures { result ≡ vvla x va }
{
    start_sums_large::vvla(x, va)
}
