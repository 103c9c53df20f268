// The derivatives of D and V. The function answers every input.

#![tactic(auto, using(crate::specs::Derivatives::Open::laws))]

ghost use Rattle.std.specs.Prelude.{◌≡◌};
ghost use Rattle.derivatives.specs.Derivatives.{derivative};

use floats::Function;
use order::{Adjacent, Rung, Sequence};
use signs::abs;

// The derivative of rung k, from its value and that of the rung above it.
pub fn derivative(sequence: Sequence, k: Rung, two: Adjacent) -> f64
    ensures { result
        ≡ derivative sequence.function sequence.below sequence.x sequence.f k two.low two.high }
{
    let Sequence {
        function,
        below,
        x,
        f,
    } = sequence;
    let Adjacent { low, high } = two;
    let k = f64::from(k);
    match (function, below) {
        (Function::D, false) => 0.5 * x * low - high,
        (Function::D, true) => -0.5 * x * low - (abs(f) + k) * high,
        (Function::V, false) => 0.5 * x * low - (f + k + 1.0) * high,
        (Function::V, true) => -0.5 * x * low + high,
    }
}
