// sin and cos: y is q quarter turns and r, and the quadrant q modulo 4 says which of the two series at r the sine is,
// and with which sign. The cosine is the sine one quarter turn further.

#![tactic(auto)]

ghost use Rattle.std.specs.Prelude.{◌≡◌, ◌≤◌, ◌<◌, false, MatchOption};
ghost use Rattle.trigonometric.specs.Trigonometric.{quadrant, angle_rest, trig_sum, sine, cosine, sin_in, sin, cos};
ghost use Rattle.trigonometric.specs.Angle.{in_reach, HasAngle};

use near::near;
use std::f64::consts::FRAC_2_PI;

// A number as its quarter turns modulo 4, and what it has beyond all of them. The quadrant is a number: the cosine adds
// one to it.
#[derive(Clone, Copy)]
struct Angle {
    quadrant: u32,
    rest: f64,
    ghost in_range: { quadrant < 4 },
}

// q modulo 4, from 0 to 3, also for negative q.
#[tactic(auto, using(crate::proofs::Quadrants::quadrant_laws))]
fn quadrant(q: i32) -> u32
    ensures { result ≡ quadrant q }
{
    (q & 3) as u32
}

// y less q quarter turns. The product with the high part, of 31 digits, is exact up to 2^22 quarter turns.
fn angle_rest(y: f64, q: i32) -> f64
    ensures { result ≡ angle_rest y q }
{
    let f = f64::from(q);
    y - f * 1.5707963267341256 - f * 6.077100506506192e-11
}

// The series from the inside out: the cosine's for less = 1, for less = 0 the sine's over its argument.
// `less` is a number: the divisor is (2j - less)(2j - less + 1).
fn trig_sum(less: u32, z: f64) -> f64
    requires { less ≤ 1 }
    ensures { result ≡ trig_sum less z }
{
    let mut a = 1.0;
    for j in (1..10).rev() {
        let d = 2 * j - less;
        a = 1.0 - z * a / f64::from(d * (d + 1));
    }
    a
}

// The sine of a small r.
#[tactic(auto, using(crate::specs::Trigonometric::Open::sine_is))]
fn sine(r: f64) -> f64
    ensures { result ≡ sine r }
{
    r * trig_sum(0, r * r)
}

// The cosine of a small r.
#[tactic(auto, using(crate::specs::Trigonometric::Open::cosine_is))]
fn cosine(r: f64) -> f64
    ensures { result ≡ cosine r }
{
    trig_sum(1, r * r)
}

// y as an angle. There is none unless the size of y is below 2^30.
#[tactic(auto, using(crate::proofs::Quadrants::quadrant_laws))]
fn angle_of(y: f64) -> Option<Angle>
    ensures { MatchOption result (in_reach y ≡ false) (λ a. HasAngle y a.quadrant a.rest) }
{
    if -1073741824.0 < y && y < 1073741824.0 {
        let q = near(y * FRAC_2_PI);
        Some(Angle {
            quadrant: quadrant(q),
            rest: angle_rest(y, q),
        })
    } else {
        None
    }
}

// The sine of the angle. In place, since by a call `cos` is up to 8 in a hundred slower.
#[inline(always)]
#[tactic(auto, using(crate::specs::Trigonometric::Open::sin_in_is))]
fn sin_in(a: Angle) -> f64
    ensures { result ≡ sin_in a.quadrant a.rest }
{
    match a.quadrant {
        0 => sine(a.rest),
        1 => cosine(a.rest),
        2 => -sine(a.rest),
        3 => -cosine(a.rest),
        _ => unreachable!(),
    }
}

// The sine of y; NaN unless the size of y is below 2^30.
#[tactic(auto, using(crate::proofs::Quadrants::angle_laws))]
pub fn sin(y: f64) -> f64
    ensures { result ≡ sin y }
{
    angle_of(y).map_or(f64::NAN, sin_in)
}

// The cosine of y, which is the sine one quarter turn further; NaN unless the size of y is below 2^30.
#[tactic(auto, using(crate::proofs::Quadrants::angle_laws))]
pub fn cos(y: f64) -> f64
    ensures { result ≡ cos y }
{
    angle_of(y).map_or(f64::NAN, |a| {
        sin_in(Angle {
            quadrant: (a.quadrant + 1) % 4,
            rest: a.rest,
        })
    })
}
