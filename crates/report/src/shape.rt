use crate::block::BlockAt;
use qbf::formula::Formula;
use qbf::referee::decide;
use truth::limits::MAX_DECIDED;

// Counts, a line for each block from the outermost, and the truth of a formula that binds few variables.
pub fn print_shape(rt: &HostRuntime, formula: &Formula) -> anyhow::Result<()> {
    println!(rt; "variables {}", formula.variables())?;
    println!(rt; "clauses {}", formula.clauses())?;
    println!(rt; "blocks {}", formula.blocks())?;
    for level in 1..=formula.blocks() {
        println!(rt; "{level} {}", BlockAt { formula, level })?;
    }
    match decide(formula) {
        Some(verdict) => println!(rt; "truth {verdict}")?,
        None => println!(rt; "truth not tried, more than {MAX_DECIDED} variables are bound")?,
    }
    Ok(())
}
