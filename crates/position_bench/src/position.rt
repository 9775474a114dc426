use qbf::formula::Formula;
use std::iter::successors;
use truth::limits::MAX_WIDTH;

// As many values as the widest block has.
const MOST_VALUES: usize = 1 << MAX_WIDTH;

// How many values there are, and how many clauses they leave in all.
#[derive(Clone, Copy, Default, Drop)]
pub(crate) struct Found {
    pub(crate) values: u32,
    pub(crate) left: u32,
}

impl Found {
    // With one value more, and what it leaves.
    fn and(self, rest: u128) -> Found {
        Found {
            values: self.values.saturating_add(1),
            left: self.left.saturating_add(rest.count_ones()),
        }
    }
}

// A set of clauses at a level.
#[derive(Clone, Copy, Drop)]
pub(crate) struct Position<'a> {
    pub(crate) formula: &'a Formula,
    pub(crate) level: usize,
    pub(crate) set: u128,
}

impl<'a> Position<'a> {
    // The values of the block.
    pub(crate) fn rests(&self) -> Found {
        let width = self.formula.width(self.level).unwrap_or(0).min(MAX_WIDTH);
        (0..1u16 << width as u16).fold(Found::default(), |found, value| {
            found.and(self.formula.rest(self.level, value, self.set).unwrap_or(0))
        })
    }

    // The candidates of the set.
    pub(crate) fn candidates(&self) -> Found {
        let next = |from: u16| self.formula.next_candidate(self.level, self.set, from);
        successors(next(0), |last| next(last.value.saturating_add(1)))
            .take(MOST_VALUES)
            .fold(
                Found::default(),
                |found, candidate| found.and(candidate.rest),
            )
    }
}
