// The state of a ladder.

#![tactic(auto)]

ghost use Rattle.std.specs.Prelude.{◌≡◌, true};
ghost use Rattle.ladder_machine.specs.Held.{counts_empty};
ghost use Rattle.ladder_states.specs.States.{state_of, sequence_in, empty_state, held_in};

use floats::Function;
use ladder_machine::Held;
use order::{Adjacent, Rung, Sequence};

// What is held, and the values of rungs n - 1 and n. It counts as empty where what is held does:
// no Option, since any state may come in from C.
#[derive(Clone, Copy)]
pub struct Ladder {
    pub held: Held,
    pub values: Adjacent,
}

impl Ladder {
    // The state that holds rungs 0 to n of a sequence; the values are those of rungs n - 1 and n. Every state is made
    // here.
    pub fn new(sequence: Sequence, n: Rung, values: Adjacent) -> Ladder
        ensures state { result ≡ state_of sequence n values.low values.high }
        ensures sequence { sequence_in result ≡ sequence }
        ensures n { (held_in result).n ≡ n }
    {
        Ladder {
            held: Held { sequence, n },
            values,
        }
    }

    // A ladder that holds nothing.
    #[tactic(auto, using(crate::specs::States::Open::empty_state_is, crate::proofs::Laws::nothing_held))]
    pub fn empty() -> Ladder
        ensures state { result ≡ empty_state }
        ensures empty { counts_empty (held_in result) ≡ true }
    {
        let sequence = Sequence {
            function: Function::D,
            below: false,
            x: 0.0,
            f: 0.0,
        };
        let values = Adjacent {
            low: 0.0,
            high: 0.0,
        };
        Ladder::new(sequence, 0, values)
    }
}
