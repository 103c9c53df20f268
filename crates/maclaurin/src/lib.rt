// The request of the Maclaurin series, with its refusals. It answers every input.

#![tactic(auto)]

ghost use Rattle.std.specs.Prelude.{◌≡◌, cond};
ghost use Rattle.std.specs.List.{list_any};
ghost use Rattle.std.specs.Float.Ieee.{is_nan};
ghost use Rattle.signs.specs.Signs.{infinite};
ghost use Rattle.answer.specs.Answer.{refusal_of, pair_of};
ghost use Rattle.maclaurin.specs.Maclaurin.{refusal, answer};

use answer::{Answer, Refusal};
use maclaurin_series::pb_maclaurin;
use mul_exp::Mantissas;
use signs::is_infinite;

// Whether the request is refused: an input is NaN, or one is infinite.
fn check(inputs: &[f64]) -> Result<(), Refusal>
    ensures { refusal_of result
        ≡ cond (list_any is_nan inputs.now) 1 (cond (list_any infinite inputs.now) 5 0) }
{
    if inputs.iter().any(|y| y.is_nan()) {
        return Err(Refusal::NotANumber);
    }
    if inputs.iter().any(|y| is_infinite(*y)) {
        return Err(Refusal::Infinite);
    }
    Ok(())
}

// The request: w(x) and w'(x), with w(0) and w'(0) as mantissas.
pub fn maclaurin(a: f64, x: f64, start: Mantissas) -> Answer
    ensures number { refusal_of result
        ≡ refusal a x start.pair.value start.pair.derivative start.exponent }
    ensures pair { pair_of result
        ≡ answer a x start.pair.value start.pair.derivative start.exponent }
{
    let Mantissas { pair, exponent } = start;
    check(&[a, x, pair.value, pair.derivative, exponent])?;
    Ok(pb_maclaurin(a, x, start))
}
