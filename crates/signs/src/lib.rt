// What a float is, beside its value: its sign, whether it is an infinity, whether two are alike. Each function answers
// every f64.

#![tactic(auto)]

ghost use Rattle.std.specs.Prelude.{◌≡◌};
ghost use Rattle.signs.specs.Signs.{alike, absolute, infinite, sign_of};

// The highest bit of a pattern, which is set below 0 and at -0.
const SIGN_BIT: u64 = 1 << 63;

// |x|: the highest bit of the pattern cleared.
// By the bits, since the library's `abs`, which compares twice, takes longer, and each turn of a start sum takes one.
#[tactic(auto, using(crate::proofs::Signs::sign_bit_laws))]
pub fn abs(x: f64) -> f64
    ensures { result ≡ absolute x }
{
    if x.is_nan() {
        x
    } else {
        f64::from_bits(x.to_bits() % SIGN_BIT)
    }
}

// Whether a and b are alike, in 01's word: the same bits, or both NaN. No equality of the library says that.
#[tactic(auto, unfolding(crate::specs::Signs::alike))]
pub fn alike(a: f64, b: f64) -> bool
    ensures { result ≡ alike a b }
{
    if a.is_nan() {
        b.is_nan()
    } else {
        !b.is_nan() && a.to_bits() == b.to_bits()
    }
}

// Whether x is one of the two infinities.
#[tactic(auto, using(crate::proofs::Signs::infinite_is))]
pub fn is_infinite(x: f64) -> bool
    ensures { result ≡ infinite x }
{
    x.is_infinite()
}

// 1 with the sign of x, a zero's too. A NaN stays.
// By the bits, since the library's `signum` takes more than twice as long where signs are mixed.
#[tactic(auto, using(crate::proofs::Signs::sign_bit_laws))]
pub fn signum(x: f64) -> f64
    ensures { result ≡ sign_of x }
{
    if x.is_nan() {
        x
    } else if x.to_bits() < SIGN_BIT {
        1.0
    } else {
        -1.0
    }
}
