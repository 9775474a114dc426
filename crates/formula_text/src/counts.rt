ghost use Rattle.std.specs.Prelude.{◌≤◌};
ghost use Rattle.truth.specs.Limits.{max_variables, max_clauses};

// What the line `p` tells: the counts of variables and clauses.
#[derive(Clone, Copy, Drop)]
pub(crate) struct Counts {
    pub(crate) variables: u32,
    pub(crate) clauses: u32,
}

// Counts within the limits.
#[derive(Clone, Copy, Drop)]
pub(crate) struct Header {
    pub(crate) counts: Counts,
    ghost few_variables: { counts.variables ≤ max_variables },
    ghost few_clauses: { counts.clauses ≤ max_clauses },
}
