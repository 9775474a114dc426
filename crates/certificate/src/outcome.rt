use truth::assignment::Assignment;

// How far a list of offered values brings a play.
#[derive(Clone, Copy, PartialEq, Eq, Debug, Drop)]
pub enum Outcome {
    // All blocks have a value: the clauses left, and the assignment played.
    Ended { left: u128, played: Assignment },
    // The other side's value is due at this level.
    Due { level: usize },
}
