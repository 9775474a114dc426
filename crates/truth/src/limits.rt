// How large a formula may be. The definitions of specs/Limits.antt say the same.

// Variables, numbered from 1.
pub const MAX_VARIABLES: u32 = 64;

// Clauses, numbered from 1.
pub const MAX_CLAUSES: usize = 128;

// Blocks of the prefix.
pub const MAX_BLOCKS: usize = 16;

// Variables in one block.
pub const MAX_WIDTH: usize = 12;

// Variables bound by a formula that is decided by trying every assignment.
pub const MAX_DECIDED: usize = 20;
