// How a line shows what was answered.

use answer::{Answer, Pair};
use std::fmt;

// A number by its bits, in hexadecimal digits; a NaN is the word.
#[derive(Drop)]
pub struct Bits(pub f64);

impl fmt::Display for Bits {
    fn fmt<W: fmt::Write>(&self, f: &mut fmt::Formatter<W>) -> fmt::Result {
        let x = self.0;
        if x.is_nan() {
            return f.write_str("NaN");
        }
        let bits = x.to_bits();
        write!(f, "{bits:016x}")
    }
}

// The refusal's number, and the pair where there is one.
#[derive(Drop)]
pub struct Shown(pub Answer);

impl fmt::Display for Shown {
    fn fmt<W: fmt::Write>(&self, f: &mut fmt::Formatter<W>) -> fmt::Result {
        match self.0 {
            Ok(Pair { value, derivative }) => write!(f, "0 {} {}", Bits(value), Bits(derivative)),
            Err(refusal) => write!(f, "{}", u32::from(refusal)),
        }
    }
}

// The slots of a table, each after a space.
#[derive(Drop)]
pub struct Slots<'a>(pub &'a [f64]);

impl fmt::Display for Slots<'_> {
    fn fmt<W: fmt::Write>(&self, f: &mut fmt::Formatter<W>) -> fmt::Result {
        for x in self.0 {
            write!(f, " {}", Bits(*x))?;
        }
        Ok(())
    }
}
