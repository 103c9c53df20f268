// P11 of 01, through the code: four requests to one ladder.

#![tactic(auto)]

ghost use Rattle.std.specs.Prelude.{◌≡◌, [], ◌∷◌, map, Float};
ghost use Rattle.std.proofs.Math.Option.{some};
ghost use Rattle.std.specs.Float.Ieee.{neg};
ghost use Rattle.floats.specs.Operations.{decimal, f0, f1};
ghost use Rattle.ladder.specs.Ladder.{written_of, pair_in};

use answer::Refusal;
use floats::Function::D;
use ladder::{Answered, request};
use ladder_machine::Request;
use ladder_states::Ladder;

// What comes of P11: the four answers, and value 4 and derivative 4 as the tables hold them at the end.
#[derive(Clone, Copy)]
pub struct FourRequests {
    pub answers: [Result<Answered, Refusal>; 4],
    pub value: f64,
    pub derivative: f64,
}

// D at x = 0 and v = 2, 4, 4, 2 on one ladder, with a value table of 6 slots and a derivative table of 5.
pub fn p11() -> FourRequests
    ensures written { map written_of result.answers ≡ some 4 ∷ some 2 ∷ some 0 ∷ some 4 ∷ [] }
    ensures answered { map pair_in result.answers
        ≡ some (neg f1, f0) ∷ some (decimal 3 0, f0) ∷ some (decimal 3 0, f0) ∷ some (neg f1, f0) ∷ [] }
    ensures stored { ◌≡◌ {A = Float × Float} (result.value, result.derivative) (decimal 3 0, f0) }
{
    let mut values = [0.0; 6];
    let mut derivatives = [0.0; 5];
    let ladder = Ladder::empty();
    let two = Request {
        function: D,
        v: 2.0,
        x: 0.0,
    };
    let four = Request { v: 4.0, ..two };
    let a = request(ladder, two, &mut values, &mut derivatives);
    let b = request(a.state, four, &mut values, &mut derivatives);
    let c = request(b.state, four, &mut values, &mut derivatives);
    let d = request(c.state, two, &mut values, &mut derivatives);
    FourRequests {
        answers: [a.answer, b.answer, c.answer, d.answer],
        value: values[4],
        derivative: derivatives[4],
    }
}
