// Replays the stored answers of the compared Rust (data/, written by compare/store) and compares bits.

#![tactic(auto)]

mod elementary_answer;
mod expansion_answer;
mod floats_answer;
mod replayed;
mod start_sums_answer;
mod tables_answer;

ghost use Rattle.std.specs.Prelude.{◌≡◌, ◌+◌, ◌/◌, length};
ghost use Rattle.stored_answers.specs.Answers.{differing, left_over};

use std::{fs, io};

// How many records were replayed, and how many of them differ.
#[derive(Clone, Copy)]
pub struct Tally {
    pub records: usize,
    pub differences: usize,
}

// Every record of s, 32 bytes each. What is left over is no record and counts as a difference.
fn replay(s: &[u8]) -> Tally
    ensures all { result.records ≡ length s.now / 32 }
    ensures counted { result.differences ≡ differing s.now (length s.now / 32) + left_over s.now }
{
    let (records, rest) = s.as_chunks::<32>();
    let differing = records.iter().filter(|r| !replayed::is_alike(*r)).count();
    Tally {
        records: records.len(),
        differences: differing + usize::from(!rest.is_empty()),
    }
}

// Replays one file and prints its line. No contract can say what is read.
fn report(rt: &HostRuntime, path: &str, name: &str) -> io::Result<()> {
    let records = fs::read(rt, path)?;
    let t = replay(&records);
    println!(rt;
        "{name}: {} answers, {} differences",
        t.records, t.differences
    )
}

fn main(rt: HostRuntime) -> io::Result<()> {
    report(&rt, "floats.bin", "floats")?;
    report(&rt, "elementary.bin", "elementary")?;
    report(&rt, "start_sums.bin", "start_sums")?;
    report(&rt, "tables.bin", "tables")?;
    report(&rt, "expansion.bin", "expansion")
}
