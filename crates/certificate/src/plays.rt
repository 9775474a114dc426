ghost use Rattle.std.specs.Prelude.{◌≡◌, true, false, MatchResult, ◌==◌};
ghost use Rattle.faults.specs.declared.cause.Cause.TheVariants.{BadValue};
ghost use Rattle.truth.specs.Truth.{rest, whole};
ghost use Rattle.certificate.specs.Movers.{is_value};
ghost use Rattle.certificate.specs.Plays.{lends, PlaysRight};
ghost use Rattle.certificate.specs.Games.{formula_of, verdict_of, entries_of, root_at, blocks_at, onward};
ghost use Rattle.certificate.specs.Views.{At};

use crate::accepted::Accepted;
use crate::covers::covering_entry;
use crate::levels::{is_value, mover_at};
use crate::mover::Mover;
use crate::position::Position;
use crate::scene::Scene;
use crate::turns::{Ended, HolderTurn, OtherTurn, Turn};
use entries::entry::Reply;
use faults::cause::Cause;
use faults::fault::Fault;
use truth::assignment::Assignment;

impl<'a> Scene<'a> {
    // The turn, by whose value is due.
    pub(crate) fn turn(self) -> Turn<'a>
        ensures { At result self.entry.game self.entry.at }
    {
        match mover_at(self.game.formula, self.game.verdict, self.at.level) {
            Some(Mover::Other) => Turn::Other(OtherTurn { scene: self }),
            Some(Mover::Holder) => Turn::Holder(HolderTurn { scene: self }),
            None => Turn::Over(Ended { scene: self }),
        }
    }
}

// A play begins at the root. Whatever is offered then, it comes out right.
pub fn begin(game: Accepted) -> Turn
    ensures root { At result game.entry (root_at game.entry) }
    ensures plays { PlaysRight (formula_of game.entry) (verdict_of game.entry) (entries_of game.entry) }
{
    let at = Position {
        level: 1,
        set: game.formula.root(game.verdict),
        played: Assignment {
            trues: 0,
            falses: 0,
        },
    };
    Scene { game, at }.turn()
}

// A value that the block at a level does not have: the turn as it was, and the fault.
#[derive(Drop)]
pub struct RefusedValue<'a> {
    pub turn: OtherTurn<'a>,
    pub fault: Fault,
}

impl<'a> OtherTurn<'a> {
    // The position at which a value is due.
    pub fn position(&self) -> Position
        ensures { result ≡ self.now.scene.at }
    {
        self.scene.at
    }

    // Takes the other side's value and moves on, or gives the turn back where its block has no such value.
    pub fn take(self, value: u16) -> Result<Turn<'a>, RefusedValue<'a>>
        ensures { MatchResult result (λ t. (is_value (blocks_at self.entry.scene.game self.entry.scene.at) value ≡ true) × At t self.entry.scene.game (onward self.entry.scene.game self.entry.scene.at value)) (λ e. (is_value (blocks_at self.entry.scene.game self.entry.scene.at) value ≡ false) × (e.turn ≡ self.entry) × (e.fault ≡ record { cause = BadValue; line = 0 })) }
    {
        let Scene { game, at } = self.scene;
        if !is_value(game.formula, at.level, value) {
            return Err(RefusedValue {
                turn: self,
                fault: Fault::from(Cause::BadValue),
            });
        }
        let next = at.moved(game.formula, value);
        Ok(Scene { game, at: next }.turn())
    }
}

impl<'a> HolderTurn<'a> {
    // The position at which a reply is due.
    pub fn position(&self) -> Position
        ensures { result ≡ self.now.scene.at }
    {
        self.scene.at
    }

    // The reply of an entry that covers the position.
    fn lent(&self) -> u16
        ensures { lends (verdict_of self.now.scene.game) (entries_of self.now.scene.game) self.now.scene.at.level self.now.scene.at.set result ≡ true }
    {
        let Scene { game, at } = self.scene;
        let Some(entry) = covering_entry(game.entries, game.verdict, at.level, at.set) else {
            unreachable()
        };
        let Reply::Value(value) = entry.reply else {
            unreachable()
        };
        value
    }

    // Gives the reply of an entry that covers the position, and moves on.
    pub fn reply(self) -> (u16, Turn<'a>)
        ensures lent { lends (verdict_of self.entry.scene.game) (entries_of self.entry.scene.game) self.entry.scene.at.level self.entry.scene.at.set result.0 ≡ true }
        ensures next { At result.1 self.entry.scene.game (onward self.entry.scene.game self.entry.scene.at result.0) }
    {
        let value = self.lent();
        let Scene { game, at } = self.scene;
        let next = at.moved(game.formula, value);
        (value, Scene { game, at: next }.turn())
    }
}

impl<'a> Ended<'a> {
    // The clauses left: none on true, and at least one on false. They are those that the assignment played leaves
    // unsatisfied.
    pub fn left(&self) -> u128
        ensures set { result ≡ self.now.scene.at.set }
        ensures won { (result == 0) ≡ verdict_of self.now.scene.game }
        ensures unsatisfied { result ≡ rest (formula_of self.now.scene.game).matrix self.now.scene.at.played.trues self.now.scene.at.played.falses (whole (formula_of self.now.scene.game).matrix) }
    {
        self.scene.at.set
    }

    // The assignment played.
    pub fn played(&self) -> Assignment
        ensures { result ≡ self.now.scene.at.played }
    {
        self.scene.at.played
    }
}
