// A record of a data file: the number of a function, x, y and the answer, in words of eight bytes, the lowest first.
// What lies past the end counts as 0.

#![tactic(auto)]

ghost use Rattle.std.specs.Prelude.{◌≡◌, get_or};
ghost use Rattle.floats.specs.Operations.{bits};
ghost use Rattle.stored_records.specs.Words.{word_at};

use std::array;
use std::num::f64_from_bits_with_nan;

#[derive(Clone, Copy)]
pub struct Record {
    pub number: u64,
    pub x: f64,
    pub y: f64,
    pub answer: f64,
}

// The byte at a place.
fn byte(s: &[u8], at: usize) -> u8
    ensures { result ≡ get_or s.now at 0 }
{
    s.get(at).copied().unwrap_or(0)
}

// Eight bytes as a number. `at` is narrow, so that the places add up.
fn word(s: &[u8], at: u16) -> u64
    ensures { result ≡ word_at s.now at }
{
    let at = usize::from(at);
    u64::from_le_bytes(array::from_fn(|k| byte(s, at + k)))
}

// The float whose bits stand at a place; each NaN pattern is NaN.
fn number(s: &[u8], at: u16) -> f64
    ensures { result ≡ bits (word_at s.now at) }
{
    f64_from_bits_with_nan(word(s, at))
}

// The four words of a record.
pub fn read_record(s: &[u8]) -> Record
    ensures number { result.number ≡ word_at s.now 0 }
    ensures x { result.x ≡ bits (word_at s.now 8) }
    ensures y { result.y ≡ bits (word_at s.now 16) }
    ensures answer { result.answer ≡ bits (word_at s.now 24) }
{
    Record {
        number: word(s, 0),
        x: number(s, 8),
        y: number(s, 16),
        answer: number(s, 24),
    }
}
