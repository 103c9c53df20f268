// IEEE 754's square root of an f64, in whole numbers. A float x above 0 is n units of 2^-1074, and its root in these
// units is the root of n * 2^1074.
// That number is written as radicand * 2^52 * 4^c, the radicand of 53 or 54 binary digits. The root of radicand * 2^52
// has 53 digits: they are the significand of the result, and c is its exponent. They come from a guess by floats
// (guess.rt) that is certified in whole numbers (certificate.rt); where it is not certified they are found one by one
// (digits.rt).
// Not the library's `sqrt`: that is an operation taken on trust, and the root is to be proved by comparing whole squares
// (docs/SCOPE.md).
// 4503599627370496 is 2^52, 9007199254740992 is 2^53, 18014398509481984 is 2^54, 9223372036854775808 is 2^63, the bit
// of the sign, 9218868437227405312 is the pattern of infinity, and 4602678819172646912 is 1022 * 2^52, which added to a
// significand makes the pattern of significand / 2^52.

#![tactic(auto)]

mod certificate;
mod digits;
mod guess;

ghost use Rattle.std.specs.Prelude.{◌≡◌, ◌-◌, ◌*◌, ◌%◌, ◌^◌, ◌<◌, ◌≤◌};
ghost use Rattle.roots.specs.SquareRoot.{square_root};
ghost use Rattle.roots.specs.Steps.{magnitude, NearestWhole, Normal, RootPattern};

use certificate::certified_root;
use digits::nearest_by_digits;
use guess::root_guess;

// significand * 2^exponent, the significand of 53 digits.
#[derive(Clone, Copy)]
struct Scaled {
    significand: u64,
    exponent: u64,
    ghost in_range: { (2 ^ 52 ≤ significand) × (significand < 2 ^ 53) },
}

// A significand, or twice one: of 53 or 54 digits.
#[derive(Clone, Copy)]
struct Radicand {
    value: u64,
    ghost in_range: { (2 ^ 52 ≤ value) × (value < 2 ^ 54 - 1) },
}

// The whole number nearest to the root of radicand * 2^52. At an even exponent the radicand is twice the significand.
// The guess, from 1 to 2, is read as a whole number of units of 2^-52: its pattern is 1023 * 2^52 and the fraction, and
// 1023 * 2^52 + 2^53 is 2^52 modulo 2^54.
#[tactic(auto, using(crate::proofs::RootScale::radicand_bounds, crate::proofs::RootPatterns::no_nan_pattern))]
fn nearest_root(s: Scaled) -> u64
    ensures { NearestWhole (s.significand * (2 - s.exponent % 2)) result }
{
    let parity = s.exponent % 2;
    let radicand = Radicand {
        value: s.significand * (2 - parity),
    };
    let guess = root_guess(f64::from_bits(s.significand + 4602678819172646912), parity);
    if !guess.is_nan()
        && let Some(root) = certified_root(
            radicand,
            (guess.to_bits() % 18014398509481984 + 9007199254740992) % 18014398509481984,
        )
    {
        root
    } else {
        nearest_by_digits(radicand)
    }
}

// The digits of a subnormal float, moved up to 53 places.
#[tactic(auto, using(crate::proofs::RootNormal::normal_laws))]
fn from_subnormal(fraction: u64) -> Scaled
    requires { (0 < fraction) × (fraction < 2 ^ 52) }
    ensures { Normal fraction result.significand result.exponent }
{
    let shift = fraction.leading_zeros() - 11;
    Scaled {
        significand: fraction << shift,
        exponent: u64::from(53 - shift),
    }
}

// The 53 digits and the exponent that the pattern of a finite float above 0 stands for.
#[tactic(auto, using(crate::proofs::RootNormal::normal_laws))]
fn from_pattern(pattern: u64) -> Scaled
    requires { (0 < pattern) × (pattern < 2047 * 2 ^ 52) }
    ensures { Normal (magnitude pattern) result.significand result.exponent }
{
    let field = pattern / 4503599627370496;
    let fraction = pattern % 4503599627370496;
    if field == 0 {
        from_subnormal(fraction)
    } else {
        Scaled {
            significand: 4503599627370496 + fraction,
            exponent: field + 52,
        }
    }
}

// The pattern of the root, whose leading digit adds 1 to the field.
fn root_pattern(pattern: u64) -> u64
    requires { (0 < pattern) × (pattern < 2047 * 2 ^ 52) }
    ensures { RootPattern (magnitude pattern) result }
{
    let s = from_pattern(pattern);
    (s.exponent + 969) / 2 * 4503599627370496 + nearest_root(s)
}

// The square root of x: NaN below 0; the zeros and infinity are their own roots.
#[tactic(auto, using(crate::proofs::RootPatterns::pattern_laws))]
pub fn square_root(x: f64) -> f64
    ensures { result ≡ square_root x }
{
    if x.is_nan() {
        return x;
    }
    let pattern = x.to_bits();
    if 0 < pattern && pattern < 9218868437227405312 {
        f64::from_bits(root_pattern(pattern))
    } else if pattern <= 9223372036854775808 {
        x
    } else {
        f64::NAN
    }
}
