// Reads a formula of 32,768 bytes many times over. Time it with `time out/read_bench 1000`.
#![tactic(auto)]

use formula_text::read::read;
use std::alloc::{AllocError, Global};
use std::env;

const SIZE: usize = 32768;

const CLAUSES: usize = 128;

// 64 variables in blocks of eight, and 128 clauses that fill the text to its size.
fn sample(heap: Global) -> Result<Vec<u8>, AllocError> {
    let mut text = Vec::with_capacity(heap, SIZE)?;
    text.extend_from_slice(b"p cnf 64 128\n")?;
    text.extend_from_slice(b"a 1 2 3 4 5 6 7 8 0\ne 9 10 11 12 13 14 15 16 0\n")?;
    text.extend_from_slice(b"a 17 18 19 20 21 22 23 24 0\ne 25 26 27 28 29 30 31 32 0\n")?;
    text.extend_from_slice(b"a 33 34 35 36 37 38 39 40 0\ne 41 42 43 44 45 46 47 48 0\n")?;
    text.extend_from_slice(b"a 49 50 51 52 53 54 55 56 0\ne 57 58 59 60 61 62 63 64 0\n")?;
    for left in (1..=CLAUSES).rev() {
        // What is free, shared among the clauses that are left, each with its end.
        let room = (SIZE.saturating_sub(text.len()) / left).saturating_sub(2);
        for literal in [b"-17 ", b" 64 "].iter().cycle().take(room / 4) {
            text.extend_from_slice(*literal)?;
        }
        text.extend_from_slice(b"0\n")?;
    }
    Ok(text)
}

fn run(rt: &HostRuntime) -> anyhow::Result<()> {
    let mut args = env::args(rt)?;
    let _name = args.next();
    let turns = args.next().map_or(Ok(10), |n| n.as_str().parse::<u32>())?;
    let text = sample(rt.alloc())?;
    let size = text.len();
    let accepted = (0..turns)
        .filter(|_| read(text.as_slice()).is_ok_and(|formula| formula.clauses() == CLAUSES))
        .count();
    println!(rt; "{size} bytes, read {turns} times, accepted {accepted} times")?;
    Ok(())
}

fn main(rt: HostRuntime) -> anyhow::Result<()> {
    run(&rt)
}
