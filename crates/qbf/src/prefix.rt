ghost use Rattle.std.specs.Prelude.{◌≡◌, ◌≤◌, [], length};
ghost use Rattle.std.specs.Option.{option_map};
ghost use Rattle.truth.specs.Limits.{max_blocks};
ghost use Rattle.truth.specs.Places.{numbered};
ghost use Rattle.truth.specs.Syntax.{bound_in};
ghost use Rattle.truth.specs.WellFormed.{repeats};
ghost use Rattle.qbf.specs.Bound.{Binds};
ghost use Rattle.qbf.specs.Stored.{block_of, blocks_of};

use crate::block::Block;
use arrayvec::ArrayVec;
use truth::limits::MAX_BLOCKS;
use truth::literal::Quantifier;

// Blocks from the outermost, and the mask of the variables that they bind. Whoever makes one or changes it shows that no
// variable is bound twice.
// It and `Matrix` have four short methods alike; their facts differ, and one type for both would be a type more.
#[derive(Drop)]
pub struct Prefix {
    pub blocks: ArrayVec<Block, MAX_BLOCKS>,
    pub bound: u64,
    ghost few: { length blocks.items ≤ max_blocks },
    ghost binds: { Binds bound (bound_in (blocks_of blocks.items)) },
}

impl Prefix {
    pub fn new() -> Prefix
        ensures { result.blocks.items ≡ [] }
    {
        Prefix {
            blocks: ArrayVec::new(),
            bound: 0,
        }
    }

    pub fn list(&self) -> &[Block]
        ensures { result.now ≡ self.now.blocks.items }
    {
        self.blocks.as_slice()
    }

    pub fn len(&self) -> usize
        ensures { result ≡ length self.now.blocks.items }
    {
        self.blocks.len()
    }

    // The block with a number from 1.
    pub(crate) fn block(&self, number: usize) -> Option<&Block>
        ensures { option_map (λ b. block_of b.now) result ≡ numbered (blocks_of self.now.blocks.items) number }
    {
        self.list().get(number.checked_sub(1)?)
    }

    // Whether a block with this quantifier would follow one with the same.
    pub fn repeats(&self, quantifier: Quantifier) -> bool
        ensures { result ≡ repeats quantifier (blocks_of self.now.blocks.items) }
    {
        match self.list().last() {
            Some(last) => quantifier == last.quantifier,
            None => false,
        }
    }
}
