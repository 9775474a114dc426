ghost use Rattle.std.specs.Prelude.{◌≡◌, ◌≤◌, true};
ghost use Rattle.truth.specs.Limits.{max_variables};
ghost use Rattle.truth.specs.Syntax.{bound_in};
ghost use Rattle.truth.specs.WellFormed.{all, wide, ranged, alternating, innermost, closed};
ghost use Rattle.qbf.specs.Stored.{blocks_of};
ghost use Rattle.qbf.specs.Tabled.{Tabled};

mod accessors;
mod choosing;
mod positions;

use crate::matrix::Matrix;
use crate::occurrences::Occurrences;
use crate::prefix::Prefix;

// A formula. Whoever makes one shows that it is well formed. Its prefix says of itself that it has at most 16 blocks and
// binds no variable twice, its matrix that it has at most 128 clauses. Where each literal occurs is kept beside the clauses.
#[derive(Drop)]
pub struct Formula {
    pub variables: u32,
    pub prefix: Prefix,
    pub matrix: Matrix,
    pub occurrences: Occurrences,
    ghost few: { variables ≤ max_variables },
    ghost widths: { all wide (blocks_of prefix.blocks.items) ≡ true },
    ghost range: { all (ranged variables) (bound_in (blocks_of prefix.blocks.items)) ≡ true },
    ghost alternates: { alternating (blocks_of prefix.blocks.items) ≡ true },
    ghost inside: { innermost (blocks_of prefix.blocks.items) ≡ true },
    ghost closes: { all (closed (bound_in (blocks_of prefix.blocks.items))) matrix.clauses.items ≡ true },
    ghost tabled: { Tabled matrix.clauses.items occurrences.table },
}
