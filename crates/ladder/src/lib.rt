// The ladder: a state that is held between requests and climbs when a higher order comes. Its tables are lent by the
// caller, of any length and content. No public function has a condition: each answers every input.

#![tactic(auto)]

mod actions;

ghost use Rattle.std.specs.Prelude.{◌≡◌};
ghost use Rattle.ladder.specs.Ladder.{given_by, outcome, requested};

use actions::act;
use answer::{Pair, Refusal};
use ladder_machine::Request;
use ladder_states::Ladder;
use order::Rung;

// What is answered where a request is not refused: a pair, and how many rungs were written.
#[derive(Clone, Copy)]
pub struct Answered {
    pub pair: Pair,
    pub written: Rung,
}

// What a request gives: the next state, and what is answered.
#[derive(Clone, Copy)]
pub struct Reply {
    pub state: Ladder,
    pub answer: Result<Answered, Refusal>,
}

// D or V at the request's order and argument: the request is judged, and then acted on. The two tables stand apart, as
// they are lent: the contract speaks of each before and after.
pub fn request(
    state: Ladder,
    request: Request,
    values: &mut [f64],
    derivatives: &mut [f64],
) -> Reply
    ensures { outcome (given_by result) values.new derivatives.new
        ≡ requested state request values.old derivatives.old }
{
    match ladder_machine::judge(state.held, request, values.len(), derivatives.len()) {
        Ok(case) => act(values, derivatives, state, case, request),
        Err(refusal) => Reply {
            state,
            answer: Err(refusal),
        },
    }
}
