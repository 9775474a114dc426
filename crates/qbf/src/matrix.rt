ghost use Rattle.std.specs.Prelude.{◌≡◌, ◌≤◌, [], length};
ghost use Rattle.truth.specs.Limits.{max_clauses};
ghost use Rattle.truth.specs.Places.{numbered};

use arrayvec::ArrayVec;
use truth::limits::MAX_CLAUSES;
use truth::literal::Clause;

// Clauses, numbered from 1 in line order.
#[derive(Drop)]
pub struct Matrix {
    pub clauses: ArrayVec<Clause, MAX_CLAUSES>,
    ghost few: { length clauses.items ≤ max_clauses },
}

impl Matrix {
    pub fn new() -> Matrix
        ensures { result.clauses.items ≡ [] }
    {
        Matrix {
            clauses: ArrayVec::new(),
        }
    }

    pub fn list(&self) -> &[Clause]
        ensures { result.now ≡ self.now.clauses.items }
    {
        self.clauses.as_slice()
    }

    pub fn len(&self) -> usize
        ensures { result ≡ length self.now.clauses.items }
    {
        self.clauses.len()
    }

    // The clause with a number from 1.
    pub(crate) fn clause(&self, number: usize) -> Option<Clause>
        ensures { result ≡ numbered self.now.clauses.items number }
    {
        self.list().get(number.checked_sub(1)?).copied()
    }
}
