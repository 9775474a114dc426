ghost use Rattle.std.specs.Prelude.{◌≡◌, ◌<◌, [], ◌∷◌, ◌++◌, length};
ghost use Rattle.truth.specs.Limits.{max_blocks, max_clauses};
ghost use Rattle.truth.specs.Syntax.{bound_in};
ghost use Rattle.truth.specs.WellFormed.{WellFormed};
ghost use Rattle.qbf.specs.Bound.{Binds};
ghost use Rattle.qbf.specs.Stored.{block_of};
ghost use Rattle.qbf.specs.Held.{blocks_in, clauses_in, qbf_of};

use qbf::block::Block;
use qbf::formula::Formula;
use qbf::matrix::Matrix;
use qbf::occurrences::Occurrences;
use qbf::prefix::Prefix;
use truth::literal::Clause;

// One block more, within the limit, and the mask of all variables then bound.
pub(crate) fn push_block(prefix: &mut Prefix, block: Block, bound: u64)
    requires { (length prefix.old.blocks.items < max_blocks) × (Binds bound (bound_in (blocks_in prefix.old ++ (block_of block ∷ [])))) }
    ensures { blocks_in prefix.new ≡ blocks_in prefix.old ++ (block_of block ∷ []) }
{
    prefix.blocks.push(block);
    prefix.bound = bound;
}

// One clause more, within the limit.
pub(crate) fn push_clause(matrix: &mut Matrix, clause: Clause)
    requires { length (clauses_in matrix.old) < max_clauses }
    ensures { clauses_in matrix.new ≡ clauses_in matrix.old ++ (clause ∷ []) }
{
    matrix.clauses.push(clause);
}

// The formula that all lines together make.
pub(crate) fn formula_of(variables: u32, prefix: Prefix, matrix: Matrix) -> Formula
    requires { WellFormed (record { variables = variables; prefix = blocks_in prefix; matrix = clauses_in matrix }) }
    ensures { qbf_of result ≡ record { variables = variables; prefix = blocks_in prefix; matrix = clauses_in matrix } }
{
    let occurrences = Occurrences::of(&matrix);
    Formula {
        variables,
        prefix,
        matrix,
        occurrences,
    }
}
