ghost use Rattle.std.specs.Prelude.{◌≡◌};
ghost use Rattle.qbf.specs.Held.{qbf_of};
ghost use Rattle.certificate.specs.Accepting.{blocks_from};
ghost use Rattle.certificate.specs.Plays.{moved};

use crate::assign::assign;
use qbf::formula::Formula;
use truth::assignment::Assignment;

// How far a play has come: the level whose value is next, the clauses not satisfied yet (clause c is bit c − 1), and the
// values given so far.
#[derive(Clone, Copy, PartialEq, Eq, Debug, Drop)]
pub struct Position {
    pub level: usize,
    pub set: u128,
    pub played: Assignment,
}

impl Position {
    // The position one level on, by a value of the level's block. Where there is no block, it stays.
    pub(crate) fn moved(self, formula: &Formula, value: u16) -> Position
        ensures { result ≡ moved (qbf_of formula.now).matrix (blocks_from (qbf_of formula.now) self.level) value self }
    {
        let Some(set) = formula.rest(self.level, value, self.set) else {
            return self;
        };
        Position {
            level: self.level + 1,
            set,
            played: assign(formula, self.level, value, self.played),
        }
    }
}
