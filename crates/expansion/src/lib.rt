// The request of the expansion, with its refusals. It answers every input.

#![tactic(auto)]

ghost use Rattle.std.specs.Prelude.{◌≡◌};
ghost use Rattle.answer.specs.Answer.{refusal_of, pair_of};
ghost use Rattle.expansion.specs.Expansion.{refusal, answer};

use answer::{Answer, Refusal};
use expansion_elementary::pbdv_elementary;
use mul_exp::mul_exp_both;
use signs::is_infinite;

// Whether the request is refused: a NaN, an order outside the expansion's range, an infinite argument.
#[tactic(auto, using(crate::proofs::Cases::cases), unfolding(answer::specs::Answer::number))]
fn check(v: f64, x: f64) -> Result<(), Refusal>
    ensures { refusal_of result ≡ refusal v x }
{
    if v.is_nan() || x.is_nan() {
        return Err(Refusal::NotANumber);
    }
    if !(-2147483648.0 < v && v <= -20.0) {
        return Err(Refusal::OrderOutsideExpansion);
    }
    if is_infinite(x) {
        return Err(Refusal::Infinite);
    }
    Ok(())
}

// The request: D of order v and its derivative at x.
pub fn d_expansion(v: f64, x: f64) -> Answer
    ensures number { refusal_of result ≡ refusal v x }
    ensures pair { pair_of result ≡ answer v x }
{
    check(v, x)?;
    let m = pbdv_elementary(v, x);
    Ok(mul_exp_both(m))
}
