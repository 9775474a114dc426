use crate::sheet::{Set, ValueAt};
use certificate::accepted::Accepted;
use certificate::plays::begin;
use certificate::turns::{Ended, OtherTurn, Turn};
use qbf::formula::Formula;

// The value that a line writes in up to 16 digits 0 and 1, or none.
fn value_of(line: &str) -> Option<u16> {
    if line.len() > 16 || line.starts_with('+') {
        return None;
    }
    u16::from_str_radix(line, 2).ok()
}

// Takes a line as the other side's value. One that is no value, or none of the block's, leaves it due.
fn take_value<'a>(
    rt: &HostRuntime,
    formula: &Formula,
    turn: OtherTurn<'a>,
    line: &str,
) -> anyhow::Result<Turn<'a>> {
    let level = turn.position().level;
    let Some(value) = value_of(line) else {
        println!(rt; "level {level}: not a value, write it in 0 and 1")?;
        return Ok(Turn::Other(turn));
    };
    match turn.take(value) {
        Ok(next) => {
            let value = ValueAt {
                formula,
                level,
                value,
            };
            println!(rt; "level {level}: value {value}")?;
            Ok(next)
        }
        Err(refused) => {
            let fault = refused.fault;
            println!(rt;
                "level {level}: {} {}, {}",
                fault.layer(),
                fault.number(),
                fault.cause
            )?;
            Ok(Turn::Other(refused.turn))
        }
    }
}

// What a play has come to.
fn print_end(rt: &HostRuntime, end: &Ended) -> anyhow::Result<()> {
    let played = end.played();
    let trues = Set(played.trues as u128);
    let falses = Set(played.falses as u128);
    println!(rt;
        "ended: clauses left {}; true {trues}; false {falses}",
        Set(end.left())
    )?;
    Ok(())
}

// Prints each reply that is due, up to where a value of the other side is, or up to the end, and then none.
fn next_due<'a>(
    rt: &HostRuntime,
    formula: &Formula,
    turn: Turn<'a>,
) -> anyhow::Result<Option<OtherTurn<'a>>> {
    let mut turn = turn;
    loop {
        turn = match turn {
            Turn::Other(other) => return Ok(Some(other)),
            Turn::Over(end) => {
                print_end(rt, &end)?;
                return Ok(None);
            }
            Turn::Holder(holder) => {
                let level = holder.position().level;
                let (value, next) = holder.reply();
                let value = ValueAt {
                    formula,
                    level,
                    value,
                };
                println!(rt; "level {level}: reply {value}")?;
                next
            }
        };
    }
}

// Plays an accepted certificate: prints each reply as it is due, and takes each value of the other side from a line of
// standard input. The input's end ends the evening.
pub(crate) fn play(rt: &HostRuntime, accepted: Accepted) -> anyhow::Result<()> {
    let formula = accepted.formula();
    let Some(mut due) = next_due(rt, formula, begin(accepted))? else {
        return Ok(());
    };
    for line in rt.lines(rt.alloc()) {
        let line = line?;
        let turn = take_value(rt, formula, due, line.as_str().trim_end())?;
        let Some(next) = next_due(rt, formula, turn)? else {
            return Ok(());
        };
        due = next;
    }
    println!(rt; "level {}: a value is due", due.position().level)?;
    Ok(())
}
