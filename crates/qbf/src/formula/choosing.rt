ghost use Rattle.std.specs.Prelude.{◌≡◌, true};
ghost use Rattle.truth.specs.Limits.{max_variables};
ghost use Rattle.truth.specs.WellFormed.{all, ranged};
ghost use Rattle.candidates.specs.Held.{choices_in};
ghost use Rattle.qbf.specs.Stored.{bound_by};
ghost use Rattle.qbf.specs.Held.{qbf_of};
ghost use Rattle.qbf.specs.Offered.{offered, next_candidate};

use crate::block::Block;
use crate::candidate::Candidate;
use crate::formula::Formula;
use crate::formula::positions::satisfied_by;
use candidates::choices::Choices;

// What each of some variables satisfies of a set.
fn choices_of(formula: &Formula, block: &Block, set: u128) -> Choices
    requires { all (ranged max_variables) (bound_by block.now) ≡ true }
    ensures { choices_in result ≡ offered (qbf_of formula.now).matrix set (bound_by block.now) }
{
    // by `split_last`, as the walk over clauses that gathers occurrences
    let mut choices = Choices::new();
    let mut left = block.bound();
    while let Some((variable, before)) = left.split_last() {
        let low = set & satisfied_by(formula, *variable, false);
        let high = set & satisfied_by(formula, *variable, true);
        let Ok(()) = choices.put_first(low, high) else {
            unreachable()
        };
        left = before;
    }
    choices
}

impl Formula {
    // The lowest candidate, not below `from`, of a set at a level: a value that leaves a rest with no other strictly
    // inside it, or at a universal level strictly around it, the lowest among equal rests. None where there is no such
    // value, or no such level.
    pub fn next_candidate(&self, level: usize, set: u128, from: u16) -> Option<Candidate>
        ensures { result ≡ next_candidate (qbf_of self.now) level set from }
    {
        let block = self.prefix.block(level)?;
        let found = choices_of(self, block, set).next(block.quantifier, from)?;
        Some(Candidate {
            value: found.value,
            rest: (set & self.whole()) - found.hits,
        })
    }
}
