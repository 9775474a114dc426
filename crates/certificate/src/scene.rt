ghost use Rattle.certificate.specs.Games.{SafeAt};

use crate::accepted::Accepted;
use crate::position::Position;

// A play by accepted entries, at a position that they cover.
#[derive(Clone, Copy, Drop)]
pub(crate) struct Scene<'a> {
    pub(crate) game: Accepted<'a>,
    pub(crate) at: Position,
    ghost safe: { SafeAt game at },
}
