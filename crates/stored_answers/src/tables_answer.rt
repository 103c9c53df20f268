// The table calls by their numbers. A number and a place are digits of the stored files' format (README.md), so each
// stays a number up to the test that reads it.

ghost use Rattle.std.specs.Prelude.{◌≡◌, if◌then◌else◌, nat_eq};
ghost use Rattle.floats.specs.Operations.{whole};
ghost use Rattle.slots.specs.Slots.{slot};
ghost use Rattle.answer.specs.Answer.{refusal_of, pair_of};
ghost use Rattle.stored_answers.specs.Tables.{junk, part_of, place_after, with_junk, tables_answer};

use answer::Answer;
use floats::Function;

// What slot k holds before a call. A match, which the check takes as the definition's tests; with an array in its place
// the goal `returns` stays open.
#[tactic(auto, using(crate::proofs::Values::named_values), unfolding(crate::specs::Tables::junk))]
fn junk(k: usize) -> f64
    ensures { result ≡ junk k }
{
    match k % 7 {
        0 => f64::NAN,
        1 => -0.0,
        2 => f64::INFINITY,
        3 => 1.5,
        4 => f64::NEG_INFINITY,
        5 => 5e-324,
        _ => -1e300,
    }
}

// Junk in every slot.
#[tactic(auto, unfolding(crate::specs::Tables::with_junk, slots::specs::Slots::filled))]
fn fill_junk(t: &mut [f64])
    ensures { t.new ≡ with_junk t.old }
{
    for (k, slot) in t.iter_mut().enumerate() {
        *slot = junk(k);
    }
}

// A slot; NaN past the end.
#[tactic(auto, using(crate::proofs::Values::named_values), unfolding(slots::specs::Slots::slot))]
fn slot_at(t: &[f64], k: usize) -> f64
    ensures { result ≡ slot t.now k }
{
    t.get(k).copied().unwrap_or(f64::NAN)
}

// The refusal number, the value or the derivative of an answer.
#[tactic(auto, using(crate::proofs::Values::answer_parts), unfolding(crate::specs::Tables::part_of))]
pub fn part_of(a: Answer, place: u64) -> f64
    ensures { result ≡ (if nat_eq place 64 then whole (refusal_of a) else part_of (pair_of a) place) }
{
    match (place, a) {
        (64, Ok(_)) => 0.0,
        (64, Err(refusal)) => f64::from(u32::from(refusal)),
        (65, Ok(pair)) => pair.value,
        (_, Ok(pair)) => pair.derivative,
        (_, Err(_)) => f64::NAN,
    }
}

// What stands at a place after a call.
#[tactic(auto, unfolding(crate::specs::Tables::place_after))]
fn place_after(t: &mut [f64], function: Function, place: u64, v: f64, x: f64) -> f64
    ensures { result ≡ place_after function place v x t.old }
{
    let a = tables::table(function, v, x, t);
    if place < 64 {
        return slot_at(t, place as usize);
    }
    part_of(a, place)
}

// The same, with junk in the table before the call.
fn place_after_junk(t: &mut [f64], function: Function, place: u64, v: f64, x: f64) -> f64
    ensures { result ≡ place_after function place v x (with_junk t.old) }
{
    fill_junk(t);
    place_after(t, function, place, v, x)
}

// Number n at order v and argument x.
#[tactic(auto, using(crate::proofs::Values::named_values), unfolding(crate::specs::Tables::tables_answer))]
pub fn answer_of(n: u64, v: f64, x: f64) -> f64
    ensures { result ≡ tables_answer n v x }
{
    let mut t = [0.0; 63];
    let Some(t) = t.get_mut(..(n / 65536) as usize) else {
        return f64::NAN;
    };
    let function = match n % 256 {
        24 => Function::D,
        _ => Function::V,
    };
    place_after_junk(t, function, n / 256 % 256, v, x)
}
