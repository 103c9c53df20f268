// What a request answers (the scope paper, "A request comes in").

#![tactic(auto)]

ghost use Rattle.std.specs.Prelude.{◌≡◌};
ghost use Rattle.answer.specs.Answer.{number};

// Why a request is refused, by the numbers of the C interface.
#[derive(Clone, Copy, PartialEq, Eq, Debug)]
pub enum Refusal {
    // An input number is NaN.
    NotANumber = 1,
    // Tables and ladder: the size of the order is 1000 or more.
    OrderTooLarge = 2,
    // Tables and ladder: a table has too few slots.
    TableTooShort = 3,
    // The expansion: the order is not in -2147483648 < v <= -20.
    OrderOutsideExpansion = 4,
    // The expansion and the Maclaurin series: an input is infinite.
    Infinite = 5,
    // The tested reader: the state counts as empty, or its branch does not run forward.
    NotForward = 6,
    // The tested reader: a rung differs.
    RungDiffers = 7,
}

// A value and a derivative.
#[derive(Clone, Copy)]
pub struct Pair {
    pub value: f64,
    pub derivative: f64,
}

pub type Answer = Result<Pair, Refusal>;

impl From<Refusal> for u32 {
    ghost from_gives = { λ refusal n. n ≡ number refusal };

    #[tactic(auto, unfolding(crate::specs::Answer::number))]
    fn from(refusal: Refusal) -> u32 {
        refusal as u32
    }
}
