// What is done on the case of an accepted request.

ghost use Rattle.std.specs.Prelude.{◌≡◌, true, ◌+◌, ◌-◌, ◌≤◌, length, Ok};
ghost use Rattle.order.specs.Order.{top_rung};
ghost use Rattle.slots.specs.Slots.{filled};
ghost use Rattle.tables.specs.Tables.{value_of, derivative_of};
ghost use Rattle.ladder_machine.specs.Machine.{asked, refusal, verdict};
ghost use Rattle.ladder_machine.specs.Held.{machine_of, verdict_of};
ghost use Rattle.ladder_climb.specs.Climb.{room_above};
ghost use Rattle.ladder_states.specs.States.{held_in};
ghost use Rattle.ladder.specs.Ladder.{state_for, value_from, derivative_from, climbed_to, given_by};
ghost use Rattle.ladder.specs.Ladder.{answered, outcome, outcome_by};

use crate::{Answered, Reply};
use answer::Pair;
use ladder_machine::{Case, Held, Request};
use ladder_states::Ladder;
use order::{Adjacent, Rung};

// The reply of an accepted request, from the state that it hands back.
fn answer(state: Ladder, written: Rung) -> Reply
    requires { 1 ≤ state.held.n }
    ensures { given_by result ≡ answered written state }
{
    let Held { sequence, n } = state.held;
    let pair = Pair {
        value: state.values.low,
        derivative: derivatives::derivative(sequence, n - 1, state.values),
    };
    Reply {
        state,
        answer: Ok(Answered { pair, written }),
    }
}

// Stores the rungs above a state's up to `top`, and gives the state there. No slot is read.
fn climb(values: &mut [f64], derivatives: &mut [f64], state: Ladder, top: Rung) -> Ladder
    requires { room_above state.held.n top (length values.old) (length derivatives.old) ≡ true }
    ensures state { result ≡ climbed_to state top }
    ensures values { values.new
        ≡ filled (value_from state) (state.held.n + 1) (state.held.n + 1) (top - state.held.n) values.old }
    ensures derivatives { derivatives.new
        ≡ filled (derivative_from state) state.held.n state.held.n (top - state.held.n) derivatives.old }
{
    let Held { sequence, n } = state.held;
    let two = ladder_climb::climb(values, derivatives, sequence, n, state.values, top);
    Ladder::new(sequence, top, two)
}

// Stores all rungs of a request, 0 to n, and gives the state that holds it.
fn start_over(values: &mut [f64], derivatives: &mut [f64], request: Request, n: Rung) -> Ladder
    requires accepted { refusal request (length values.old) (length derivatives.old) ≡ 0 }
    requires top { n ≡ top_rung request.v }
    ensures state { result ≡ state_for request (top_rung request.v) }
    ensures values { values.new
        ≡ filled (value_of request.function request.v request.x) 0 0 (top_rung request.v + 1) values.old }
    ensures derivatives { derivatives.new
        ≡ filled (derivative_of request.function request.v request.x) 0 0 (top_rung request.v) derivatives.old }
{
    let rungs = order::split(request.v).rungs(request.function, request.x, n);
    ladder_columns::fill_columns(values, derivatives, rungs);
    let top = rungs.n as usize;
    let two = Adjacent {
        low: values[top - 1],
        high: values[top],
    };
    Ladder::new(rungs.sequence, rungs.n, two)
}

// Acts on the case of a request.
pub(crate) fn act(
    values: &mut [f64],
    derivatives: &mut [f64],
    state: Ladder,
    case: Case,
    request: Request,
) -> Reply
    requires { verdict_of (Ok case)
        ≡ verdict (machine_of (held_in state))
        (asked request (length values.old) (length derivatives.old)) }
    ensures { outcome (given_by result) values.new derivatives.new
        ≡ outcome_by (verdict_of (Ok case)) state request values.old derivatives.old }
{
    match case {
        Case::Repeat(_) => answer(state, 0),
        Case::Climb { from, to } => answer(climb(values, derivatives, state, to), to - from),
        Case::StartOver(n) => answer(start_over(values, derivatives, request, n), n + 1),
    }
}
