// The functions below the tables.

use crate::printing::{Bits, Shown};
use answer::Pair;
use mul_exp::Mantissas;
use std::f64::consts::PI;
use std::io;

fn line(rt: &HostRuntime, text: &str, x: f64) -> io::Result<()> {
    println!(rt; "{text}: {}", Bits(x))
}

// P1 to P4.
pub fn examples(rt: &HostRuntime) -> io::Result<()> {
    line(rt, "P1 exp(0)", exponential::exp(0.0))?;
    line(rt, "P2 gamma2(5)", gamma::gamma2(5.0))?;
    line(rt, "P3 gamma2(-3)", gamma::gamma2(-3.0))?;
    line(rt, "P4 dvsa(0, 1)", start_sums_small::dvsa(0.0, 1.0))?;
    line(rt, "P4 dvsa(0, 0)", start_sums_small::dvsa(0.0, 0.0))
}

// The sine at whole quarter turns.
pub fn sines(rt: &HostRuntime) -> io::Result<()> {
    line(rt, "sin(-0.5 pi)", trigonometric::sin(-0.5 * PI))?;
    line(rt, "sin(-1.5 pi)", trigonometric::sin(-1.5 * PI))?;
    line(rt, "sin(-1001.5 pi)", trigonometric::sin(-1001.5 * PI))?;
    line(rt, "sin(1001.5 pi)", trigonometric::sin(1001.5 * PI))
}

// V's start sum at whole orders, where the sine keeps 1e300 out.
pub fn whole_orders(rt: &HostRuntime) -> io::Result<()> {
    line(rt, "vvsa(1, 3)", start_sums_small::vvsa(1.0, 3.0))?;
    line(rt, "vvsa(0, 2)", start_sums_small::vvsa(0.0, 2.0))
}

// The maximum at NaN: by itself, and in a series whose terms become NaN.
pub fn maxima(rt: &HostRuntime) -> io::Result<()> {
    line(rt, "max(NaN, 1)", extremes::max(f64::NAN, 1.0))?;
    line(rt, "max(1, NaN)", extremes::max(1.0, f64::NAN))?;
    let start = Mantissas {
        pair: Pair {
            value: 1.0,
            derivative: -1.0,
        },
        exponent: 0.0,
    };
    let series = maclaurin::maclaurin(1e300, 1e10, start);
    println!(rt; "maclaurin(1e300, 1e10, 1, -1, 0): {}", Shown(series))
}
