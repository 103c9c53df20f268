// The table call of a function: values from slot 0 on and derivatives from slot num on, in a slice that the caller
// lends, of any length. It says whether the request is refused, and else stores and answers.

#![tactic(auto)]

ghost use Rattle.std.specs.Prelude.{◌≡◌, ◌+◌, ◌-◌, ◌≤◌, length};
ghost use Rattle.slots.specs.Slots.{slot};
ghost use Rattle.answer.specs.Answer.{refusal_of, pair_of};
ghost use Rattle.tables.specs.Tables.{refusal, table_after, answer};

pub use answer::{Answer, Pair, Refusal};
use floats::Function;
use order::Rung;

// Slot n - 1 of both columns.
#[tactic(auto, unfolding(slots::specs::Slots::slot))]
fn pair_at(t: &[f64], n: Rung, num: Rung) -> Pair
    requires some { 1 ≤ n }
    requires room { num + n ≤ length t.now }
    ensures value { result.value ≡ slot t.now (n - 1) }
    ensures derivative { result.derivative ≡ slot t.now (num + (n - 1)) }
{
    let last = n as usize - 1;
    Pair {
        value: t[last],
        derivative: t[num as usize + last],
    }
}

// The table of a function at order v and argument x, which stand apart, as D_v(x) reads.
pub fn table(function: Function, v: f64, x: f64, t: &mut [f64]) -> Answer
    ensures number { refusal_of result ≡ refusal v x (length t.old) }
    ensures pair { pair_of result ≡ answer function v x (length t.old) }
    ensures after { t.new ≡ table_after function v x t.old }
{
    // Before the tests: a call that is refused by 3 then takes less time.
    let num = order::num(v);
    table_refusals::check(v, x)?;
    // Past refusal 2: n is 1000 and num 1002 at most.
    let num = num as Rung;
    if t.len() < 2 * num as usize {
        return Err(Refusal::TableTooShort);
    }
    let split = order::split(v);
    let rungs = split.rungs(function, x, split.n as Rung);
    table_columns::fill_table(t, rungs, num);
    Ok(pair_at(t, rungs.n, num))
}
