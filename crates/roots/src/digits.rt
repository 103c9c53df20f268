// The root of radicand * 2^52 digit by digit: its 53 binary digits are found one by one, and the last is rounded by the
// remainder.

ghost use Rattle.roots.specs.Steps.{Partial, NextDigit, WholeRoot, NearestWhole};

use crate::Radicand;

// The digits of the radicand still to come, the root of those passed, and what its square leaves of them.
#[derive(Clone, Copy)]
struct Digits {
    rest: u64,
    root: u64,
    remainder: u64,
}

// One more digit of the root: two digits of the rest go over to the remainder.
fn next_digit(s: Digits) -> Digits
    requires { Partial s.rest s.root s.remainder }
    ensures { NextDigit s.rest s.root s.remainder result.rest result.root result.remainder }
{
    let rest = s.rest % 4503599627370496 * 4;
    let remainder = s.remainder * 4 + s.rest / 4503599627370496;
    if s.root * 4 < remainder {
        Digits {
            rest,
            root: s.root * 2 + 1,
            remainder: remainder - (s.root * 4 + 1),
        }
    } else {
        Digits {
            rest,
            root: s.root * 2,
            remainder,
        }
    }
}

// The whole root of radicand * 2^52, of 53 digits, and its remainder.
fn root_digits(radicand: Radicand) -> Digits
    ensures { WholeRoot radicand.value result.root result.remainder }
{
    let mut s = Digits {
        rest: radicand.value,
        root: 0,
        remainder: 0,
    };
    for _ in 0..53_u32 {
        s = next_digit(s);
    }
    s
}

// The whole number nearest to the root of radicand * 2^52, which is above root + 1/2 exactly where the remainder is
// above root.
pub(crate) fn nearest_by_digits(radicand: Radicand) -> u64
    ensures { NearestWhole radicand.value result }
{
    let d = root_digits(radicand);
    if d.root < d.remainder {
        d.root + 1
    } else {
        d.root
    }
}
