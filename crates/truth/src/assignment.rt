// Variables that are true and variables that are false: variable v is bit v − 1.
#[derive(Clone, Copy, PartialEq, Eq, Debug, Drop)]
pub struct Assignment {
    pub trues: u64,
    pub falses: u64,
}
