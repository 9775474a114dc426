ghost use Rattle.std.specs.Prelude.{◌≡◌, ◌≤◌, length};
ghost use Rattle.truth.specs.Limits.{max_variables, max_clauses};
ghost use Rattle.truth.specs.Occurrences.{occurrences};
ghost use Rattle.qbf.specs.Held.{clauses_in};
ghost use Rattle.qbf.specs.Tabled.{Tabled};

use crate::matrix::Matrix;
use truth::limits::MAX_VARIABLES;
use truth::literal::Clause;

// A place for each variable that there can be.
const PLACES: usize = MAX_VARIABLES as usize;

// The clauses that a variable satisfies if it is true, and those if it is false.
#[derive(Clone, Copy, Drop)]
pub struct Occurrence {
    pub positive: u128,
    pub negative: u128,
}

// What each variable satisfies, at the place before its number.
#[derive(Drop)]
pub struct Occurrences {
    pub table: [Occurrence; PLACES],
}

// The clauses that a variable satisfies by this truth value: each clause adds its digit below those after it.
fn clauses_with(clauses: &[Clause], so: bool, variable: u32) -> u128
    requires few { length clauses.now ≤ max_clauses }
    requires range { (1 ≤ variable) × (variable ≤ max_variables) }
    ensures { result ≡ occurrences so clauses.now variable }
{
    // by `split_last`, and not over `rev()`: what is behind stays a slice, of which the loop says what it has found
    let mut found = 0;
    let mut left = clauses;
    while let Some((clause, before)) = left.split_last() {
        let digit = (clause.satisfiers(so) >> (variable - 1)) % 2;
        found = digit as u128 + 2 * found;
        left = before;
    }
    found
}

impl Occurrences {
    pub fn of(matrix: &Matrix) -> Occurrences
        ensures { Tabled (clauses_in matrix.now) result.table }
    {
        let clauses = matrix.list();
        let none = Occurrence {
            positive: 0,
            negative: 0,
        };
        let mut table = [none; PLACES];
        for (k, place) in table.iter_mut().enumerate() {
            let variable = k as u32 + 1;
            *place = Occurrence {
                positive: clauses_with(clauses, true, variable),
                negative: clauses_with(clauses, false, variable),
            };
        }
        Occurrences { table }
    }
}
