use antichain::arrivals::Arrivals;
use antichain::calls::{Round, run_both};
use antichain::entry::Entry;
use antichain::levels::Levels;
use std::{fmt, io};

fn show<E: Entry + fmt::Debug>(rt: &impl Print, round: &Round<E>) -> io::Result<()> {
    let call = round.call;
    print!(rt; "  {call:?}:")?;
    if let Some(first) = round.first {
        print!(rt; " {first:?} |")?;
    }
    if let Some(second) = round.second {
        print!(rt; " {second:?}")?;
    }
    println!(rt; "")
}

fn show_from<E: Entry + fmt::Debug>(
    rt: &impl Print,
    rounds: &[Round<E>],
    from: usize,
) -> io::Result<()> {
    for round in rounds.iter().skip(from) {
        show(rt, round)?;
    }
    Ok(())
}

// Runs the rounds on stores over the two tables, and prints each from the one at `from` on, with both answers.
pub(crate) fn side_by_side<E: Entry + fmt::Debug>(
    rt: &impl Print,
    title: &str,
    here: &mut [E],
    there: &mut [E],
    rounds: &mut [Round<E>],
    from: usize,
) -> io::Result<()> {
    println!(rt; "{title}")?;
    run_both(&mut Arrivals::new(here), &mut Levels::new(there), rounds);
    show_from(rt, rounds, from)
}
