// An answer as a struct of C.

ghost use Rattle.std.specs.Prelude.{◌≡◌};
ghost use Rattle.answer.specs.Answer.{refusal_of, pair_of};
ghost use Rattle.gozhnerim_structs.specs.Answers.{answer_of};

use crate::GozhnerimAnswer;
use answer::{Answer, Pair};

impl From<Answer> for GozhnerimAnswer {
    ghost from_gives = { λ a answer. answer ≡ answer_of (refusal_of a) (pair_of a) };

    #[tactic(auto, using(crate::proofs::Laws::flat_laws), unfolding(crate::specs::Answers::answer_of))]
    fn from(a: Answer) -> GozhnerimAnswer {
        match a {
            Ok(Pair { value, derivative }) => GozhnerimAnswer {
                refusal: 0,
                value,
                derivative,
            },
            Err(refusal) => GozhnerimAnswer {
                refusal: u32::from(refusal),
                value: f64::NAN,
                derivative: f64::NAN,
            },
        }
    }
}
