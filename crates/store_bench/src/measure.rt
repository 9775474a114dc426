use crate::work::{add_each, larger, look_up};
use antichain::store::{ListedStore, Store};
use set_entries::apart::apart;
use set_entries::kinds::Outer;
use std::io;
use std::time::{Clock, Duration, Instant};

// How many calls there are in a second, if `calls` took this long.
fn per_second(calls: usize, time: Duration) -> u128 {
    calls as u128 * 1_000_000_000 / time.as_nanos().max(1)
}

// Does some work, and says what it gives and how long it takes.
fn timed<R: Clock, F: FnOnce() -> usize + Drop>(rt: &R, work: F) -> io::Result<(usize, Duration)>
    requires { F.IsAlwaysCallable work }
{
    let start = Instant::now(rt)?;
    let done = work();
    Ok((done, start.elapsed(rt)?))
}

// Adds the entries from `first` to `last`, replaces the first hundred, and looks up the last hundred, and as many sets
// that no entry covers, since none has the member 101. Each is timed.
fn step<S: ListedStore<Outer>, R: Print + Eprint + Clock>(
    rt: &R,
    name: &str,
    store: &mut S,
    first: u16,
    last: u16,
) -> io::Result<()> {
    let late = last.saturating_sub(99);
    let (filled, fill_time) = timed(rt, || add_each(store, first, last, apart))?;
    let (replaced, replace_time) = timed(
        rt,
        || add_each(store, first, first.saturating_add(99), larger),
    )?;
    let (covered, covered_time) = timed(rt, || look_up(store, late, last, 0))?;
    let (others, others_time) = timed(rt, || look_up(store, late, last, 1 << 101))?;
    let count = store.count();
    println!(rt; "{name} {count} {filled} {replaced} {covered} {others}")?;
    eprintln!(rt;
        "{name} {count}: fills {}, replacements {}, covers {}, of others {} a second",
        per_second(filled, fill_time),
        per_second(replaced, replace_time),
        per_second(covered, covered_time),
        per_second(100, others_time)
    )
}

// Takes a store to 100, 1,000, 10,000 and 65,536 entries.
pub(crate) fn measure<S: ListedStore<Outer>, R: Print + Eprint + Clock>(
    rt: &R,
    name: &str,
    store: &mut S,
) -> io::Result<()> {
    step(rt, name, store, 0, 99)?;
    step(rt, name, store, 100, 999)?;
    step(rt, name, store, 1000, 9999)?;
    step(rt, name, store, 10000, 65535)
}
