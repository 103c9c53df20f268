// The words that every definition above shares, facts about binary64, and a polynomial by its coefficients.

#![tactic(auto)]

ghost use Rattle.std.specs.Prelude.{◌≡◌};
ghost use Rattle.floats.specs.Numbers.{IsNumbered};
ghost use Rattle.floats.specs.Polynomials.{polevl};

// Which function: D is DLMF's U, by its order. The numbers are those of the C interface.
#[derive(Clone, Copy, PartialEq, Eq)]
pub enum Function {
    D = 1,
    V = 2,
}

// A number that no function has.
#[derive(Clone, Copy, PartialEq, Eq, Debug)]
pub struct UnknownFunction {
    pub number: u32,
}

impl TryFrom<u32> for Function {
    type Error = UnknownFunction;

    ghost try_from_gives = { IsNumbered };

    fn try_from(number: u32) -> Result<Self, UnknownFunction> {
        match number {
            1 => Ok(Function::D),
            2 => Ok(Function::V),
            _ => Err(UnknownFunction { number }),
        }
    }
}

// The polynomial with these coefficients, from the highest power down, at x; 0 where there is none.
#[inline]
pub fn polevl(coef: &[f64], x: f64) -> f64
    ensures { result ≡ polevl coef.now x }
{
    coef.iter()
        .copied()
        .reduce(|acc, c| acc * x + c)
        .unwrap_or(0.0)
}
