// The elementary functions by their numbers.

ghost use Rattle.std.specs.Prelude.{◌≡◌};
ghost use Rattle.stored_answers.specs.Elementary.{elementary_answer};

// Function n at x and y. A number of the stored files' format stays one up to this match.
#[tactic(auto, using(crate::proofs::Values::named_values), unfolding(crate::specs::Elementary::elementary_answer))]
pub fn answer_of(n: u64, x: f64, y: f64) -> f64
    ensures { result ≡ elementary_answer n x y }
{
    match n {
        11 => exponential::exp(x),
        12 => exponential::exp2(x),
        13 => exponential::exp_m1(x),
        14 => logarithm::ln(x),
        15 => logarithm::pow(x, y),
        16 => trigonometric::sin(x),
        17 => trigonometric::cos(x),
        18 => roots::square_root(x),
        _ => f64::NAN,
    }
}
