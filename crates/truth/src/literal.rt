ghost use Rattle.std.specs.Prelude.{◌≡◌, ◌-◌, ◌^◌, ◌≤◌, false};
ghost use Rattle.truth.specs.Limits.{max_variables};
ghost use Rattle.truth.specs.WellFormed.{ranged};
ghost use Rattle.truth.specs.Truth.{satisfied};
ghost use Rattle.truth.specs.Occurrences.{satisfiers};

use crate::assignment::Assignment;
use crate::limits::MAX_VARIABLES;
use std::fmt;

// How a block binds its variables.
#[derive(Clone, Copy, PartialEq, Eq, Debug, Drop)]
pub enum Quantifier {
    Existential,
    Universal,
}

impl fmt::Display for Quantifier {
    // The letter that begins a block's line.
    fn fmt<W: fmt::Write>(&self, f: &mut fmt::Formatter<W>) -> fmt::Result {
        f.write_str(match self {
            Quantifier::Existential => "e",
            Quantifier::Universal => "a",
        })
    }
}

// A variable, or its negation.
#[derive(Clone, Copy, PartialEq, Eq, Debug, Drop)]
pub struct Literal {
    pub negative: bool,
    pub variable: u32,
}

// A set of literals: variable v is bit v − 1 of the masks.
#[derive(Clone, Copy, PartialEq, Eq, Default, Debug, Drop)]
pub struct Clause {
    pub positive: u64,
    pub negative: u64,
}

impl Clause {
    // Whether it has a literal that an assignment makes true.
    pub fn satisfied(self, by: Assignment) -> bool
        ensures { result ≡ satisfied self by.trues by.falses }
    {
        self.positive & by.trues != 0 || self.negative & by.falses != 0
    }

    // The mask of the variables that satisfy it by this truth value.
    pub fn satisfiers(self, so: bool) -> u64
        ensures { result ≡ satisfiers so self }
    {
        if so { self.positive } else { self.negative }
    }
}

// The mask of one variable, and 0 for a number that no variable has: masks are joined, and there the empty one is right.
pub fn mask(variable: u32) -> u64
    ensures one { 1 ≤ variable → variable ≤ max_variables → result ≡ 2 ^ (variable - 1) }
    ensures none { ranged max_variables variable ≡ false → result ≡ 0 }
{
    if variable == 0 || variable > MAX_VARIABLES {
        return 0;
    }
    1 << (variable - 1)
}
