use certificate::accepted::Accepted;
use entries::entry::Reply;
use qbf::formula::Formula;
use report::block::BlockAt;
use std::fmt;

// A set, which prints as the numbers of its members, joined by commas, or - for none.
#[derive(Drop)]
pub(crate) struct Set(pub(crate) u128);

impl fmt::Display for Set {
    fn fmt<W: fmt::Write>(&self, f: &mut fmt::Formatter<W>) -> fmt::Result {
        if self.0 == 0 {
            return f.write_str("-");
        }
        let members = (1..=128u32).filter(|number| (self.0 >> (number - 1)) % 2 == 1);
        for (i, number) in members.enumerate() {
            if i > 0 {
                f.write_str(",")?;
            }
            write!(f, "{number}")?;
        }
        Ok(())
    }
}

// A value of the block at a level, which prints as a digit for each variable, the first one first.
#[derive(Drop)]
pub(crate) struct ValueAt<'a> {
    pub(crate) formula: &'a Formula,
    pub(crate) level: usize,
    pub(crate) value: u16,
}

impl<'a> fmt::Display for ValueAt<'a> {
    fn fmt<W: fmt::Write>(&self, f: &mut fmt::Formatter<W>) -> fmt::Result {
        match self.formula.width(self.level) {
            Some(width) => write!(f, "{:0width$b}", self.value),
            None => Ok(()),
        }
    }
}

// The replies of a level's entries, each with the set that it is for.
fn print_replies(rt: &HostRuntime, accepted: &Accepted, level: usize) -> anyhow::Result<()> {
    let formula = accepted.formula();
    let entries = accepted.entries().iter();
    for entry in entries.filter(|entry| entry.level as usize == level) {
        if let Reply::Value(value) = entry.reply {
            let value = ValueAt {
                formula,
                level,
                value,
            };
            println!(rt; "  clauses {}: reply {value}", Set(entry.set))?;
        }
    }
    Ok(())
}

// The sheet of an accepted certificate: its verdict, and level by level the replies to give. On true a reply is for every
// set inside the one it stands with, on false for every set around it.
pub(crate) fn print_sheet(rt: &HostRuntime, accepted: &Accepted) -> anyhow::Result<()> {
    let formula = accepted.formula();
    println!(rt; "accepted: {}", accepted.verdict())?;
    for level in 1..=formula.blocks() {
        println!(rt; "level {level}: {}", BlockAt { formula, level })?;
        print_replies(rt, accepted, level)?;
    }
    Ok(())
}
