// A record of a data file, replayed.

ghost use Rattle.std.specs.Prelude.{◌≡◌};
ghost use Rattle.stored_answers.specs.Answers.{answer, held};

use crate::{elementary_answer, expansion_answer, floats_answer, start_sums_answer, tables_answer};
use stored_records::read_record;

// Number n at x and y. Numbers are the stored files' format, so they stay numbers up to the matches that read them.
#[tactic(auto, unfolding(crate::specs::Answers::answer))]
fn answer_of(n: u64, x: f64, y: f64) -> f64
    ensures { result ≡ answer n x y }
{
    match n {
        ..=10 => floats_answer::answer_of(n, x, y),
        11..=18 => elementary_answer::answer_of(n, x, y),
        19..=23 => start_sums_answer::answer_of(n, x, y),
        _ if n % 256 <= 25 => tables_answer::answer_of(n, x, y),
        _ => expansion_answer::answer_of(n, x, y),
    }
}

// Whether the function of a record answers what the record holds.
#[tactic(auto, unfolding(crate::specs::Answers::held))]
pub fn is_alike(s: &[u8]) -> bool
    ensures { result ≡ held s.now }
{
    let r = read_record(s);
    signs::alike(answer_of(r.number, r.x, r.y), r.answer)
}
