// A ladder's state and reply as structs of C.

ghost use Rattle.std.specs.Prelude.{◌≡◌, cond, leb};
ghost use Rattle.ladder_states.specs.States.{state_of, sequence_in};
ghost use Rattle.ladder.specs.Ladder.{given_by};
ghost use Rattle.gozhnerim_structs.specs.Ladders.{ladder_in, ladder_out, reply_of};

use crate::{GozhnerimLadder, GozhnerimReply};
use floats::Function;
use ladder::Reply;
use ladder_states::Ladder;
use order::{Adjacent, Rung, Sequence};

// The n of a state as a counter. A state whose n is above 1000 counts as empty, as one whose n is 0 does.
#[tactic(auto, using(std::proofs::lemmas::Bool::Decides::nat_tests))]
fn counted(n: u32) -> Rung
    ensures { result ≡ cond (leb n 1000) n 0 }
{
    if n <= 1000 { n as Rung } else { 0 }
}

// Of any state: with a function that is neither D nor V the ladder holds nothing, and an n above 1000 is 0.
impl From<GozhnerimLadder> for Ladder {
    ghost from_gives = { λ state ladder. let s = ladder_in state in
        ladder ≡ state_of (sequence_in s) (cond (leb s.held.n 1000) s.held.n 0) s.values.low s.values.high };

    fn from(state: GozhnerimLadder) -> Ladder {
        let n = counted(state.n);
        let Ok(function) = Function::try_from(state.function) else {
            return Ladder::empty();
        };
        let sequence = Sequence {
            function,
            below: state.below_zero != 0,
            x: state.x,
            f: state.f,
        };
        let values = Adjacent {
            low: state.value_below,
            high: state.value_top,
        };
        Ladder::new(sequence, n, values)
    }
}

impl From<Ladder> for GozhnerimLadder {
    ghost from_gives = { λ ladder state. state ≡ ladder_out ladder };

    #[tactic(auto, using(crate::proofs::Laws::side_told), unfolding(crate::specs::Ladders::ladder_out))]
    fn from(ladder: Ladder) -> GozhnerimLadder {
        let sequence = ladder.held.sequence;
        GozhnerimLadder {
            function: sequence.function as u32,
            below_zero: u32::from(sequence.below),
            n: u32::from(ladder.held.n),
            reserved: [0; 3],
            x: sequence.x,
            f: sequence.f,
            value_below: ladder.values.low,
            value_top: ladder.values.high,
        }
    }
}

// The reply to a request on the state `held`: a refusal hands it back as it came, every field. No `From`, since it
// takes two values.
pub fn reply_of(held: GozhnerimLadder, reply: Reply) -> GozhnerimReply
    ensures { result ≡ reply_of held (given_by reply) }
{
    let answered = match reply.answer {
        Ok(answered) => answered,
        Err(refusal) => {
            return GozhnerimReply {
                ladder: held,
                refusal: u32::from(refusal),
                written: 0,
                value: f64::NAN,
                derivative: f64::NAN,
            };
        }
    };
    GozhnerimReply {
        ladder: GozhnerimLadder::from(reply.state),
        refusal: 0,
        written: u32::from(answered.written),
        value: answered.pair.value,
        derivative: answered.pair.derivative,
    }
}
