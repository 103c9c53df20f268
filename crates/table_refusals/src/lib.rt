// The refusals that a table call and a ladder request share. The function answers every input.

#![tactic(auto)]

ghost use Rattle.std.specs.Prelude.{◌≡◌, false};
ghost use Rattle.answer.specs.Answer.{refusal_of};
ghost use Rattle.table_refusals.specs.Refusals.{refusal_by};

use answer::Refusal;

// Whether a request is refused by 1 or 2, whatever its tables. The table call and the ladder each test 3 in their own way,
// with the order's numbers as rung counters, which past refusal 2 hold them.
#[tactic(auto, using(crate::proofs::Laws::outcomes), unfolding(answer::specs::Answer::number))]
pub fn check(v: f64, x: f64) -> Result<(), Refusal>
    ensures { refusal_of result ≡ refusal_by v x false }
{
    if v.is_nan() || x.is_nan() {
        return Err(Refusal::NotANumber);
    }
    if order::too_large(v) {
        return Err(Refusal::OrderTooLarge);
    }
    Ok(())
}
