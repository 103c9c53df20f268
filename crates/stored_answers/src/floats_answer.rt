// The small functions by their numbers: those of `signs`, `truncation` and `extremes`.

ghost use Rattle.std.specs.Prelude.{◌≡◌};
ghost use Rattle.stored_answers.specs.Floats.{floats_answer};

// Function n at x and y. A number of the stored files' format stays one up to this match.
#[tactic(auto, using(crate::proofs::Values::named_values), unfolding(crate::specs::Floats::floats_answer))]
pub fn answer_of(n: u64, x: f64, y: f64) -> f64
    ensures { result ≡ floats_answer n x y }
{
    match n {
        1 => signs::abs(x),
        2 => f64::from(x.is_nan()),
        3 => f64::from(signs::is_infinite(x)),
        4 => f64::from(truncation::to_i32(x)),
        5 => truncation::trunc(x),
        6 => truncation::fract(x),
        7 => extremes::min(x, y),
        8 => extremes::max(x, y),
        9 => signs::signum(x),
        10 => f64::from(signs::alike(x, y)),
        _ => f64::NAN,
    }
}
