// Who gives the value of a level's block: the holder of the verdict by a reply, or the other side.
#[derive(Clone, Copy, PartialEq, Eq, Debug, Drop)]
pub(crate) enum Mover {
    Holder,
    Other,
}
