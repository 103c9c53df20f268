// The functions of `gamma` and `start_sums` by their numbers.

ghost use Rattle.std.specs.Prelude.{◌≡◌};
ghost use Rattle.stored_answers.specs.StartSums.{start_sums_answer};

// Function n at x and y. A number of the stored files' format stays one up to this match.
#[tactic(auto, using(crate::proofs::Values::named_values), unfolding(crate::specs::StartSums::start_sums_answer))]
pub fn answer_of(n: u64, x: f64, y: f64) -> f64
    ensures { result ≡ start_sums_answer n x y }
{
    match n {
        19 => gamma::gamma2(x),
        20 => start_sums_small::dvsa(x, y),
        21 => start_sums_large::dvla(x, y),
        22 => start_sums_small::vvsa(x, y),
        23 => start_sums_large::vvla(x, y),
        _ => f64::NAN,
    }
}
