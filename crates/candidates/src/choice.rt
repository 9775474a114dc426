// What the variables of a block from one on can satisfy of a set of clauses: that one if false (digit 0), that one
// if true (digit 1), and all of them together at most.
#[derive(Clone, Copy, Default, Drop)]
pub(crate) struct Choice {
    pub(crate) low: u128,
    pub(crate) high: u128,
    pub(crate) reach: u128,
}

// A value of a block, and the clauses that it satisfies.
#[derive(Clone, Copy, PartialEq, Eq, Debug, Drop)]
pub struct Hit {
    pub value: u16,
    pub hits: u128,
}
