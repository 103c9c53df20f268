// The values that the branches start from.

#![tactic(auto, using(crate::specs::Rungs::Open::start_laws))]

ghost use Rattle.std.specs.Prelude.{◌≡◌};
ghost use Rattle.rungs.specs.Rungs.{small_limit, start_value, starts_gaussian, next_order, start_rungs};
ghost use Rattle.rungs.specs.Rungs.{top_rungs, seed};

use exponential::exp;
use floats::Function;
use order::{Adjacent, Rungs, Sequence};
use recurrence::has_own_rung_two;
use signs::abs;
use start_sums_large::{SQRT_FRAC_2_PI, dvla, vvla};
use start_sums_small::{dvsa, vvsa};

// Up to this size an argument is small. A match, here and below: which function it is a state says at run time.
fn small_limit(function: Function) -> f64
    ensures { result ≡ small_limit function }
{
    match function {
        Function::D => 5.8,
        Function::V => 7.5,
    }
}

// The function at another order, by the start sum for this argument.
pub fn start_value(sequence: Sequence, va: f64) -> f64
    ensures { result ≡ start_value sequence va }
{
    let Sequence { function, x, .. } = sequence;
    let small = abs(x) <= small_limit(function);
    match (function, small) {
        (Function::D, true) => dvsa(x, va),
        (Function::D, false) => dvla(x, va),
        (Function::V, true) => vvsa(x, va),
        (Function::V, false) => vvla(x, va),
    }
}

// Whether rungs 0 and 1 are e^(-x²/4) and x times it: D from order 0 on, at f = 0.
fn starts_gaussian(sequence: Sequence) -> bool
    ensures { result ≡ starts_gaussian sequence.function sequence.below sequence.f }
{
    sequence.function == Function::D && !sequence.below && sequence.f == 0.0
}

// The order of rung 1, by the side, which is a field.
fn next_order(sequence: Sequence) -> f64
    ensures { result ≡ next_order sequence.below sequence.f }
{
    if sequence.below {
        sequence.f - 1.0
    } else {
        sequence.f + 1.0
    }
}

// Rungs 0 and 1 of the forward branches, whatever n is.
pub fn start_rungs(sequence: Sequence) -> Adjacent
    ensures { (result.low, result.high) ≡ start_rungs sequence }
{
    let Sequence { x, f, .. } = sequence;
    if starts_gaussian(sequence) {
        let low = exp(-0.25 * x * x);
        Adjacent { low, high: x * low }
    } else if has_own_rung_two(sequence) {
        Adjacent {
            low: start_value(sequence, f),
            high: SQRT_FRAC_2_PI * exp(0.25 * x * x),
        }
    } else {
        Adjacent {
            low: start_value(sequence, f),
            high: start_value(sequence, next_order(sequence)),
        }
    }
}

// Rungs n - 1 and n of the downward branches.
pub fn top_rungs(rungs: Rungs) -> Adjacent
    ensures { (result.low, result.high) ≡ top_rungs rungs.sequence rungs.u rungs.n }
{
    let Rungs { sequence, u, n } = rungs;
    let Sequence { function, x, f, .. } = sequence;
    match function {
        Function::D => {
            let order = -f64::from(n) + f;
            Adjacent {
                low: dvsa(x, order + 1.0),
                high: dvsa(x, order),
            }
        }
        Function::V => Adjacent {
            low: vvsa(x, u - 1.0),
            high: vvsa(x, u),
        },
    }
}

// What the scaled branches start from, in place of a rung far above n.
pub fn seed(function: Function) -> f64
    ensures { result ≡ seed function }
{
    match function {
        Function::D => 1e-30,
        Function::V => 1e-40,
    }
}
