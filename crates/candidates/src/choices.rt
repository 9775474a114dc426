ghost use Rattle.std.specs.Prelude.{◌≡◌, true, reverse};
ghost use Rattle.candidates.specs.Hits.{reaching};

mod next;

use crate::choice::Choice;
use arrayvec::ArrayVec;
use truth::limits::MAX_WIDTH;

// The variables of a block, from the last to the first, and what each satisfies: one more ahead is one more at the end.
#[derive(Drop)]
pub struct Choices {
    held: ArrayVec<Choice, MAX_WIDTH>,
    ghost reaches: { reaching (reverse held.items) ≡ true },
}
