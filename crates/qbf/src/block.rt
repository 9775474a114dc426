ghost use Rattle.std.specs.Prelude.{◌≡◌, ◌≤◌, true, false, length, take, MatchOption};
ghost use Rattle.std.specs.List.{slice_get, list_all};
ghost use Rattle.truth.specs.Limits.{max_variables, max_width};
ghost use Rattle.truth.specs.WellFormed.{all, ranged};

use arrayvec::ArrayVec;
use truth::limits::{MAX_VARIABLES, MAX_WIDTH};
use truth::literal::Quantifier;

// A quantifier and the variables that it binds, in the first `width` places. A table of its own, and no vector of fixed
// capacity: blocks are copied, and such vectors are not.
#[derive(Clone, Copy, Drop)]
pub struct Block {
    pub quantifier: Quantifier,
    pub width: usize,
    pub variables: [u32; MAX_WIDTH],
    ghost narrow: { width ≤ max_width },
    ghost table: { length variables ≡ max_width },
}

// A block that binds nothing fills the places that a prefix doesn't use.
impl Default for Block {
    fn default() -> Block {
        Block {
            quantifier: Quantifier::Existential,
            width: 0,
            variables: [0; MAX_WIDTH],
        }
    }
}

// Whether all numbers are variables.
fn are_variables(numbers: &[u32]) -> bool
    ensures { result ≡ list_all (ranged max_variables) numbers.now }
{
    numbers.iter().all(|v| *v >= 1 && *v <= MAX_VARIABLES)
}

impl Block {
    // The block of these variables, or none where one of the numbers is no variable.
    pub fn new(quantifier: Quantifier, variables: ArrayVec<u32, MAX_WIDTH>) -> Option<Block>
        ensures { MatchOption result (all (ranged max_variables) variables.items ≡ false) (λ b. (b.quantifier ≡ quantifier) × (take b.width b.variables ≡ variables.items) × (all (ranged max_variables) variables.items ≡ true)) }
    {
        let numbers = variables.as_slice();
        if !are_variables(numbers) {
            return None;
        }
        let mut table = [0; MAX_WIDTH];
        table[..numbers.len()].copy_from_slice(numbers);
        Some(Block {
            quantifier,
            width: numbers.len(),
            variables: table,
        })
    }

    // The variables that it binds, in the order of its line.
    pub fn bound(&self) -> &[u32]
        ensures { result.now ≡ take self.now.width self.now.variables }
    {
        &self.variables[..self.width]
    }

    // The k-th variable, k from 0.
    pub(crate) fn variable(&self, k: usize) -> Option<u32>
        ensures { result ≡ slice_get (take self.now.width self.now.variables) k }
    {
        self.bound().get(k).copied()
    }
}
