use qbf::formula::Formula;
use std::fmt;

// The block at a level, which prints as its line in a formula's text has it, without the 0.
#[derive(Drop)]
pub struct BlockAt<'a> {
    pub formula: &'a Formula,
    pub level: usize,
}

impl<'a> fmt::Display for BlockAt<'a> {
    fn fmt<W: fmt::Write>(&self, f: &mut fmt::Formatter<W>) -> fmt::Result {
        if let Some(quantifier) = self.formula.quantifier(self.level) {
            write!(f, "{quantifier}")?;
        }
        for variable in self.formula.bound(self.level).unwrap_or(&[]) {
            write!(f, " {variable}")?;
        }
        Ok(())
    }
}
