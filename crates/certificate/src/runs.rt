ghost use Rattle.certificate.specs.Plays.{Played, Right, PlaysRight};
ghost use Rattle.certificate.specs.Games.{formula_of, verdict_of, entries_of, root_at};

use crate::accepted::Accepted;
use crate::outcome::Outcome;
use crate::plays::begin;
use crate::turns::Turn;

// Plays a list of offered values, refused ones included, as far as it goes. A play that ends leaves no clause on true
// and at least one on false, and just the clauses that the assignment played leaves unsatisfied.
pub fn play_all(game: Accepted, offers: &[u16]) -> Outcome
    ensures played { Played (formula_of game.entry) (verdict_of game.entry) (entries_of game.entry) (formula_of game.entry).prefix (root_at game.entry) offers.now result }
    ensures plays { PlaysRight (formula_of game.entry) (verdict_of game.entry) (entries_of game.entry) }
    ensures right { Right (formula_of game.entry) (verdict_of game.entry) result }
{
    let mut turn = begin(game);
    let mut rest = offers;
    loop {
        turn = match turn {
            Turn::Over(end) => {
                return Outcome::Ended {
                    left: end.left(),
                    played: end.played(),
                };
            }
            Turn::Holder(holder) => {
                let (_, next) = holder.reply();
                next
            }
            Turn::Other(other) => {
                let Some((value, after)) = rest.split_first() else {
                    return Outcome::Due {
                        level: other.position().level,
                    };
                };
                rest = after;
                match other.take(*value) {
                    Ok(next) => next,
                    Err(refused) => Turn::Other(refused.turn),
                }
            }
        };
    }
}
