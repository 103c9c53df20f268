// The expansion, the Maclaurin series and the functions below them by their numbers. A number, a part and a place are
// digits of the stored files' format (README.md), so each stays a number up to the match that reads it.

ghost use Rattle.std.specs.Prelude.{◌≡◌};
ghost use Rattle.stored_answers.specs.Expansion.{constant, sum_at, mantissa_at, series_at, expansion_answer};

use crate::tables_answer::part_of;
use answer::Pair;
use mul_exp::Mantissas;

// A mantissa or an exponent of a series is one of these.
const CONSTANTS: [f64; 16] = [
    0.0,
    -0.0,
    1.0,
    -1.0,
    0.5,
    -2.25,
    1e300,
    -1e-300,
    700.0,
    -745.5,
    1500.0,
    -1500.0,
    5e-324,
    f64::INFINITY,
    f64::NAN,
    0.1,
];

// The constant that the last digit of k to the base 16 stands for.
fn constant(k: u64) -> f64
    ensures { result ≡ constant k }
{
    CONSTANTS[(k % 16) as usize]
}

// The sum of the u polynomials, or with another part than 0 that of the v polynomials.
#[tactic(auto, unfolding(crate::specs::Expansion::sum_at))]
fn sum_at(part: u64, t: f64, w: f64) -> f64
    ensures { result ≡ sum_at part t w }
{
    let sums = expansion_polynomials::uv_sums(t, w);
    match part {
        0 => sums.u,
        _ => sums.v,
    }
}

// The value's mantissa, the derivative's, or with another part than 0 and 1 the exponent.
#[tactic(auto, unfolding(crate::specs::Expansion::mantissa_at))]
fn mantissa_at(part: u64, v: f64, x: f64) -> f64
    ensures { result ≡ mantissa_at part v x }
{
    let m = expansion_elementary::pbdv_elementary(v, x);
    match part {
        0 => m.pair.value,
        1 => m.pair.derivative,
        _ => m.exponent,
    }
}

// The refusal number, the value or the derivative of a series, whose mantissas and exponent are digits of n.
#[tactic(auto, unfolding(crate::specs::Expansion::series_at))]
fn series_at(n: u64, place: u64, a: f64, x: f64) -> f64
    ensures { result ≡ series_at n place a x }
{
    let start = Mantissas {
        pair: Pair {
            value: constant(n / 65536),
            derivative: constant(n / 1048576),
        },
        exponent: constant(n / 16777216),
    };
    part_of(maclaurin::maclaurin(a, x, start), place)
}

// Number n at x and y.
#[tactic(auto, using(crate::proofs::Values::named_values), unfolding(crate::specs::Expansion::expansion_answer))]
pub fn answer_of(n: u64, x: f64, y: f64) -> f64
    ensures { result ≡ expansion_answer n x y }
{
    let place = n / 256 % 256;
    match n % 256 {
        26 => gamma_ratio::log1pmx(x),
        27 => gamma_ratio::lgam_stirling_corr(x),
        28 => gamma_ratio::ln_gamma_ratio(x),
        29 => mul_exp::mul_exp(x, y),
        30 => sum_at(place, x, y),
        31 => mantissa_at(place, x, y),
        32 => part_of(expansion::d_expansion(x, y), place),
        33 => series_at(n, place, x, y),
        _ => f64::NAN,
    }
}
