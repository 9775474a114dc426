ghost use Rattle.std.specs.Prelude.{◌≡◌, ◌≤◌, true, map, length, if◌then◌else◌, bit_or};
ghost use Rattle.std.specs.Option.{option_map, ok_or};
ghost use Rattle.faults.specs.declared.cause.Cause.TheVariants.{BadPosition};
ghost use Rattle.truth.specs.Limits.{max_variables, max_clauses};
ghost use Rattle.truth.specs.Syntax.{mask_of, bound_in};
ghost use Rattle.truth.specs.WellFormed.{all, ranged};
ghost use Rattle.truth.specs.Places.{numbered};
ghost use Rattle.truth.specs.Truth.{satisfied, rest, rest_under, whole, root_of};
ghost use Rattle.truth.specs.Occurrences.{occurrences, settled};
ghost use Rattle.truth.specs.Positions.{position_at};
ghost use Rattle.truth.specs.Verdicts.{is_true};
ghost use Rattle.qbf.specs.Stored.{bound_by, block_of};
ghost use Rattle.qbf.specs.Held.{qbf_of};

use crate::block::Block;
use crate::formula::Formula;
use crate::occurrences::Occurrence;
use faults::cause::Cause;
use faults::fault::Fault;
use truth::assignment::Assignment;
use truth::limits::MAX_CLAUSES;
use truth::literal::{Clause, mask};
use truth::verdict::Verdict;

// The clauses that a variable satisfies by this truth value.
pub(crate) fn satisfied_by(formula: &Formula, variable: u32, so: bool) -> u128
    requires { ranged max_variables variable ≡ true }
    ensures { result ≡ occurrences so (qbf_of formula.now).matrix variable }
{
    let Occurrence { positive, negative } = formula.occurrences.table[variable as usize - 1];
    if so { positive } else { negative }
}

// The clauses that a value of a block satisfies.
fn settle(formula: &Formula, block: &Block, value: u16) -> u128
    requires { all (ranged max_variables) (bound_by block.now) ≡ true }
    ensures { result ≡ settled (qbf_of formula.now).matrix (bound_by block.now) value }
{
    let variables = block.bound();
    let mut all = 0;
    for (i, x) in variables.iter().enumerate() {
        let digit = (value >> (variables.len() - 1 - i)) % 2;
        all |= satisfied_by(formula, *x, digit == 1);
    }
    all
}

// 1 for a clause that an assignment leaves unsatisfied, and else 0.
fn left_digit(clause: &Clause, by: Assignment) -> u128
    ensures { result ≡ (if satisfied clause.now by.trues by.falses then 0 else 1) }
{
    if clause.satisfied(by) { 0 } else { 1 }
}

// The clauses that an assignment leaves of all: each clause adds its digit below those after it.
fn unsatisfied(clauses: &[Clause], by: Assignment) -> u128
    requires { length clauses.now ≤ max_clauses }
    ensures { result ≡ rest clauses.now by.trues by.falses (whole clauses.now) }
{
    // by `split_last`, as the walk over clauses that gathers occurrences
    let mut found = 0;
    let mut left = clauses;
    while let Some((clause, before)) = left.split_last() {
        found = left_digit(clause, by) + 2 * found;
        left = before;
    }
    found
}

// The mask of a block's variables, and of those in another mask.
fn mask_with(block: &Block, others: u64) -> u64
    requires { all (ranged max_variables) (bound_by block.now) ≡ true }
    ensures { result ≡ bit_or others (mask_of (bound_by block.now)) }
{
    let variables = block.bound();
    let mut all = others;
    for x in variables {
        all |= mask(*x);
    }
    all
}

// The mask of the variables that some blocks bind.
fn mask_of(blocks: &[Block]) -> u64
    requires { all (ranged max_variables) (bound_in (map block_of blocks.now)) ≡ true }
    ensures { result ≡ mask_of (bound_in (map block_of blocks.now)) }
{
    let mut all = 0;
    for block in blocks {
        all = mask_with(block, all);
    }
    all
}

impl Formula {
    // The set of all clauses.
    pub(crate) fn whole(&self) -> u128
        ensures { result ≡ whole (qbf_of self.now).matrix }
    {
        match self.matrix.len() {
            MAX_CLAUSES => u128::MAX,
            count => (1 << count) - 1,
        }
    }

    // The set that level 1 begins with, where a verdict is to be shown.
    pub fn root(&self, verdict: Verdict) -> u128
        ensures { result ≡ root_of (qbf_of self.now) (is_true verdict) }
    {
        // by verdict, though both sets are the same: a rule that differs between them has its place here
        match verdict {
            Verdict::True | Verdict::False => self.whole(),
        }
    }

    // What a value of the block at a level leaves of a set of clauses, or none where there is no such level. Digits
    // past the block's width do not count.
    pub fn rest(&self, level: usize, value: u16, set: u128) -> Option<u128>
        ensures { result ≡ option_map (λ b. rest_under (qbf_of self.now).matrix b value set) (numbered (qbf_of self.now).prefix level) }
    {
        let block = self.prefix.block(level)?;
        Some(set & (self.whole() - settle(self, block, value)))
    }

    // The set left once the first blocks are decided: their variables in the word are true, the others false.
    // Refused where there are fewer blocks, or where the word has a variable off them.
    pub fn position(&self, decided: usize, word: u64) -> Result<u128, Fault>
        ensures { result ≡ ok_or (position_at (qbf_of self.now) decided word) (record { cause = BadPosition; line = 0 }) }
    {
        let blocks = self.prefix.list();
        if decided > blocks.len() {
            return Err(Fault::from(Cause::BadPosition));
        }
        let variables = mask_of(&blocks[0..decided]);
        if word & variables != word {
            return Err(Fault::from(Cause::BadPosition));
        }
        let by = Assignment {
            trues: word,
            falses: variables - word,
        };
        Ok(unsatisfied(self.matrix.list(), by))
    }
}
