// How many levels there are, and how much a store may hold. The definitions of specs/Limits.antt say the same.

// Levels go from 1 to this.
pub const MAX_LEVEL: usize = 16;

// A start for each level, and the end of the last.
pub(crate) const STARTS: usize = MAX_LEVEL + 1;

// The entries that a store holds at most, however long its table is.
pub const MAX_ENTRIES: usize = 65536;
