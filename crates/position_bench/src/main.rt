// Takes the rest of all clauses under every value of every block, and the candidates of each block, many times over.
// What was found goes to standard output, and what one rest and one block of candidates cost to standard error.
#![tactic(auto)]

mod position;

use formula_text::read::read;
use position::{Found, Position};
use std::io::Read;
use std::time::{Clock, Duration, Instant};
use std::{env, io};
use truth::verdict::Verdict;

// Does some work many times over, and says what it finds and how long it takes in all.
fn timed<F: Fn() -> Found + Drop>(
    rt: &HostRuntime,
    turns: u32,
    work: F,
) -> io::Result<(Found, Duration)>
    requires { F.IsAlwaysCallable work }
{
    let start = Instant::now(rt)?;
    let mut found = Found::default();
    for _ in 0..turns {
        found = work();
    }
    Ok((found, start.elapsed(rt)?))
}

fn nanoseconds(time: Duration, count: u32) -> u128 {
    time.as_nanos() / count.max(1) as u128
}

fn measure(rt: &HostRuntime, position: Position<'_>, turns: u32) -> anyhow::Result<()> {
    let (rests, rest_time) = timed(rt, turns, || position.rests())?;
    let (chosen, candidate_time) = timed(rt, turns, || position.candidates())?;
    let level = position.level;
    println!(rt;
        "{level} {} {} {} {}",
        rests.values, rests.left, chosen.values, chosen.left
    )?;
    let each = nanoseconds(rest_time, rests.values.saturating_mul(turns));
    let all = nanoseconds(candidate_time, turns);
    eprintln!(rt; "level {level}: a rest {each} ns, the candidates of a block {all} ns")?;
    Ok(())
}

// Measures each level, with the set that the root leaves there under the value 0 of each block before it.
fn run(rt: &HostRuntime) -> anyhow::Result<()> {
    let mut args = env::args(rt)?;
    let _name = args.next();
    let turns = args.next().map_or(Ok(1), |n| n.as_str().parse::<u32>())?;
    let mut text = Vec::new(rt.alloc());
    rt.stdin().read_to_end(&mut text)?;
    println!(rt; "level values left candidates left")?;
    if let Ok(formula) = read(text.as_slice()) {
        let mut set = formula.root(Verdict::True);
        for level in 1..=formula.blocks() {
            let position = Position {
                formula: &formula,
                level,
                set,
            };
            measure(rt, position, turns)?;
            set = formula.rest(level, 0, set).unwrap_or(set);
        }
    }
    Ok(())
}

fn main(rt: HostRuntime) -> anyhow::Result<()> {
    run(&rt)
}
