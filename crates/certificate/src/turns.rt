ghost use Rattle.std.specs.Prelude.{◌≡◌, true};
ghost use Rattle.certificate.specs.Movers.{reply_due, value_due, nothing_due};
ghost use Rattle.certificate.specs.Games.{verdict_of, blocks_at};

use crate::scene::Scene;

// Each turn lets callers do what is due in it, and nothing else. Two of them tell their position, each by a method of a
// line: a trait for it would be an import more for every caller.

// The other side's value is due.
#[derive(Drop)]
pub struct OtherTurn<'a> {
    pub(crate) scene: Scene<'a>,
    ghost due: { value_due (verdict_of scene.game) (blocks_at scene.game scene.at) ≡ true },
}

// The holder's reply is due.
#[derive(Drop)]
pub struct HolderTurn<'a> {
    pub(crate) scene: Scene<'a>,
    ghost due: { reply_due (verdict_of scene.game) (blocks_at scene.game scene.at) ≡ true },
}

// All blocks have a value.
#[derive(Drop)]
pub struct Ended<'a> {
    pub(crate) scene: Scene<'a>,
    ghost due: { nothing_due (blocks_at scene.game scene.at) ≡ true },
}

// A play, by what is due in it.
#[derive(Drop)]
pub enum Turn<'a> {
    Other(OtherTurn<'a>),
    Holder(HolderTurn<'a>),
    Over(Ended<'a>),
}
