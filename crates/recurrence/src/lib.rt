// The recurrences of D and V: one step of each. Each function answers every input.

#![tactic(auto)]

ghost use Rattle.std.specs.Prelude.{◌≡◌};
ghost use Rattle.recurrence.specs.Recurrence.{step, own_rung_two, next_rung, step_down};

use floats::Function;
use order::{Adjacent, Rung, Sequence};

// Rung k from the two below it.
#[tactic(auto, using(crate::specs::Recurrence::Open::step_laws))]
pub fn step(sequence: Sequence, k: Rung, two: Adjacent) -> f64
    ensures { result ≡ step sequence.function sequence.below sequence.x sequence.f k two.low two.high }
{
    let Sequence {
        function,
        below,
        x,
        f,
    } = sequence;
    let Adjacent { low, high } = two;
    let k = f64::from(k);
    // The side first: with the function first, V's climb takes a tenth longer (docs/BENCHMARKS.md).
    match (below, function) {
        (false, Function::D) => x * high - (k + f - 1.0) * low,
        (true, Function::D) => (-x * high + low) / (k - 1.0 - f),
        (false, Function::V) => (x * high - low) / (k + f),
        (true, Function::V) => x * high + (k - f - 2.0) * low,
    }
}

// Whether rung 2 is x times rung 1: V below 0, at f = 0.
#[tactic(auto, using(crate::specs::Recurrence::Open::rung_two_laws))]
pub fn has_own_rung_two(sequence: Sequence) -> bool
    ensures { result ≡ own_rung_two sequence.function sequence.below sequence.f }
{
    sequence.function == Function::V && sequence.below && sequence.f == 0.0
}

// Rung 2 from rungs 0 and 1.
#[tactic(auto, using(crate::specs::Recurrence::Open::rung_two_laws))]
pub fn rung_two(sequence: Sequence, two: Adjacent) -> f64
    ensures { result
        ≡ next_rung sequence.function sequence.below sequence.x sequence.f 2 two.low two.high }
{
    if has_own_rung_two(sequence) {
        sequence.x * two.high
    } else {
        step(sequence, 2, two)
    }
}

// Rung k from the two above it. A match, since which function it is a state says at run time.
#[tactic(auto, using(crate::specs::Recurrence::Open::step_laws))]
pub fn step_down(sequence: Sequence, k: Rung, two: Adjacent) -> f64
    ensures { result ≡ step_down sequence.function sequence.x sequence.f k two.low two.high }
{
    let Sequence { function, x, f, .. } = sequence;
    let Adjacent { low, high } = two;
    let k = f64::from(k);
    match function {
        Function::D => x * low + (k - f + 1.0) * high,
        Function::V => x * low - (k + f + 2.0) * high,
    }
}
