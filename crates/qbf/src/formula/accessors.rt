ghost use Rattle.std.specs.Prelude.{◌≡◌, ◌≤◌, true, length, IfSome};
ghost use Rattle.std.specs.Option.{option_map};
ghost use Rattle.std.specs.List.{slice_get};
ghost use Rattle.text.specs.Taken.{and_then};
ghost use Rattle.truth.specs.Limits.{max_variables, max_width};
ghost use Rattle.truth.specs.Places.{numbered};
ghost use Rattle.truth.specs.WellFormed.{all, ranged};
ghost use Rattle.qbf.specs.Held.{qbf_of};

use crate::formula::Formula;
use truth::literal::{Clause, Quantifier};

impl Formula {
    // How many variables there may be: they are numbered from 1 up to this.
    pub fn variables(&self) -> u32
        ensures { result ≡ (qbf_of self.now).variables }
    {
        self.variables
    }

    // How many blocks there are. Levels are numbered from 1, the outermost block's, up to this.
    pub fn blocks(&self) -> usize
        ensures { result ≡ length (qbf_of self.now).prefix }
    {
        self.prefix.len()
    }

    // How many clauses there are. They are numbered from 1 up to this.
    pub fn clauses(&self) -> usize
        ensures { result ≡ length (qbf_of self.now).matrix }
    {
        self.matrix.len()
    }

    // The quantifier of the block at a level, or none where there is no such level.
    pub fn quantifier(&self, level: usize) -> Option<Quantifier>
        ensures { result ≡ option_map (λ b. b.quantifier) (numbered (qbf_of self.now).prefix level) }
    {
        Some(self.prefix.block(level)?.quantifier)
    }

    // How many variables the block at a level has.
    pub fn width(&self, level: usize) -> Option<usize>
        ensures { result ≡ option_map (λ b. length b.variables) (numbered (qbf_of self.now).prefix level) }
    {
        Some(self.prefix.block(level)?.width)
    }

    // The k-th variable of the block at a level, k from 0.
    pub fn variable(&self, level: usize, k: usize) -> Option<u32>
        ensures { result ≡ and_then (numbered (qbf_of self.now).prefix level) (λ b. slice_get b.variables k) }
    {
        self.prefix.block(level)?.variable(k)
    }

    // The variables of the block at a level, in the order of its line: at most twelve, and each from 1 to 64.
    pub fn bound(&self, level: usize) -> Option<&[u32]>
        ensures value { option_map (λ r. r.now) result ≡ option_map (λ b. b.variables) (numbered (qbf_of self.now).prefix level) }
        ensures narrow { IfSome result (λ r. length r.now ≤ max_width) }
        ensures range { IfSome result (λ r. all (ranged max_variables) r.now ≡ true) }
    {
        Some(self.prefix.block(level)?.bound())
    }

    // The clause with this number.
    pub fn clause(&self, number: usize) -> Option<Clause>
        ensures { result ≡ numbered (qbf_of self.now).matrix number }
    {
        self.matrix.clause(number)
    }
}
