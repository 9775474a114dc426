// A value of a block that can decide a position, and what it leaves of the position's set.
#[derive(Clone, Copy, PartialEq, Eq, Debug, Drop)]
pub struct Candidate {
    pub value: u16,
    pub rest: u128,
}
