// An enum of its own and no `Option`: its cases are those of the format, to which a third may come.
// What the side that an entry speaks for plays at its level: nothing where it is the other side's turn, or a value.
#[derive(Clone, Copy, PartialEq, Eq, Debug, Drop)]
pub enum Reply {
    None,
    Value(u16),
}

// A level, a set of clauses and a reply. Clause c is bit c − 1 of the set. Any numbers may stand here: whether an entry
// fits a formula is for readers and checks to say.
#[derive(Clone, Copy, PartialEq, Eq, Debug, Drop)]
pub struct Entry {
    pub level: u8,
    pub set: u128,
    pub reply: Reply,
}
