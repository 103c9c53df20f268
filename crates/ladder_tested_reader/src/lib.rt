// The tested reader: it lends a column of two tables only where both hold every rung of a state, whoever wrote to them.
// Each public function answers every input.

#![tactic(auto)]

mod rung_tests;

ghost use Rattle.std.specs.Prelude.{◌≡◌};
ghost use Rattle.answer.specs.Answer.{refusal_of};
ghost use Rattle.ladder_tested_reader.specs.Tested.{tested, part_of, tested_part};

use answer::Refusal;
use ladder_machine::Held;
use ladder_reader::Column;
use rung_tests::{derivatives_alike, values_alike};

// Tests both tables against the rungs of a state, whose two values play no part.
#[tactic(auto, using(crate::proofs::Tests::tests), unfolding(answer::specs::Answer::number))]
pub fn test(held: Held, values: &[f64], derivatives: &[f64]) -> Result<(), Refusal>
    ensures { refusal_of result ≡ tested held values.now derivatives.now }
{
    if held.counts_empty() || !held.runs_forward() {
        return Err(Refusal::NotForward);
    }
    if ladder_machine::too_short(held.n, values.len(), derivatives.len()) {
        return Err(Refusal::TableTooShort);
    }
    let Held { sequence, n } = held;
    if !values_alike(values, sequence, n) || !derivatives_alike(values, derivatives, sequence, n) {
        return Err(Refusal::RungDiffers);
    }
    Ok(())
}

// The column named, n + 1 values or n derivatives, where both tables pass the test.
#[tactic(auto, using(crate::proofs::Tests::column_laws), unfolding(crate::specs::Tested::column_held))]
pub fn tested_column<'a>(
    held: Held,
    values: &'a [f64],
    derivatives: &'a [f64],
    which: Column,
) -> Result<&'a [f64], Refusal>
    ensures number { refusal_of result ≡ tested held values.now derivatives.now }
    ensures part { part_of result ≡ tested_part which held values.now derivatives.now }
{
    test(held, values, derivatives)?;
    let top = held.n as usize;
    Ok(match which {
        Column::Values => &values[..=top],
        Column::Derivatives => &derivatives[..top],
    })
}
