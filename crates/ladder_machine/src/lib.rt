// The ladder machine's side of a request: what a ladder holds, and how a request to it is judged. No D or V is worked
// out here, and no value that a ladder holds is seen. Each public function answers every input.

#![tactic(auto)]

mod cases;

ghost use Rattle.std.specs.Prelude.{◌≡◌};
ghost use Rattle.ladder_machine.specs.Machine.{asked, too_short, verdict};
ghost use Rattle.ladder_machine.specs.Held.{machine_of, verdict_of};

use answer::Refusal;
use cases::case_of;
use floats::Function;
use order::{Rung, Sequence};

// A request for D or V at the order v and the argument x.
#[derive(Clone, Copy)]
pub struct Request {
    pub function: Function,
    pub v: f64,
    pub x: f64,
}

// What a ladder holds beside its two values: rungs 0 to n of a sequence. It counts as empty where n is 0 or above 1000,
// x or f is NaN, or the size of f is 1 or more.
#[derive(Clone, Copy)]
pub struct Held {
    pub sequence: Sequence,
    pub n: Rung,
}

// What an accepted request is, with the n that is held then.
#[derive(Clone, Copy)]
pub enum Case {
    Repeat(Rung),
    Climb { from: Rung, to: Rung },
    StartOver(Rung),
}

// Whether a value table or a derivative table of these lengths is too short for rungs 0 to n.
#[tactic(auto, using(crate::proofs::Tests::tests))]
pub fn too_short(n: Rung, values: usize, derivatives: usize) -> bool
    ensures { result ≡ too_short n values derivatives }
{
    let top = n as usize;
    values < top + 1 || derivatives < top
}

// The judgement of a request, by what is held and the lengths of the two tables.
#[tactic(auto, using(crate::proofs::Tests::judging), unfolding(crate::specs::Held::verdict_of))]
pub fn judge(
    held: Held,
    request: Request,
    values: usize,
    derivatives: usize,
) -> Result<Case, Refusal>
    ensures { verdict_of result ≡ verdict (machine_of held) (asked request values derivatives) }
{
    let Request { function, v, x } = request;
    table_refusals::check(v, x)?;
    let split = order::split(v);
    // Past refusal 2: n is 1000 at most.
    let n = split.n as Rung;
    if too_short(n, values, derivatives) {
        return Err(Refusal::TableTooShort);
    }
    Ok(case_of(held, split.sequence(function, x), n))
}
