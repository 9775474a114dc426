ghost use Rattle.std.specs.Prelude.{◌≡◌};
ghost use Rattle.faults.specs.Refusals.{layer_of, number_of};

use crate::layer::Layer;
use std::fmt;

// A store of a session: that of the winning entries or that of the losing ones.
#[derive(Clone, Copy, PartialEq, Eq, Debug, Drop)]
pub enum Side {
    Winning,
    Losing,
}

// Why something is refused, with the values that the refusal returns beside its line.
#[derive(Clone, Copy, PartialEq, Eq, Debug, Drop)]
pub enum Cause {
    // formula: 1 to 6
    FormulaForm,
    OverLimit,
    BadVariable,
    BadAlternation,
    UnboundVariable,
    ClauseCount,
    // certificate: 10 to 13
    CertificateForm,
    OtherFormula,
    BadEntry,
    TableFull,
    // check: 20 and 21
    RootUncovered,
    EntryUnsupported,
    // session: 30 to 34
    BadPosition,
    StoreFull { level: usize, side: Side },
    RootUndecided,
    BufferShort { needed: usize },
    BadLevel,
    // play: 40
    BadValue,
    // program: 50
    InputTooLong,
}

impl Cause {
    // The layer that refuses for this cause.
    pub fn layer(self) -> Layer
        ensures { result ≡ layer_of self }
    {
        match self {
            Cause::FormulaForm
            | Cause::OverLimit
            | Cause::BadVariable
            | Cause::BadAlternation
            | Cause::UnboundVariable
            | Cause::ClauseCount => Layer::Formula,
            Cause::CertificateForm | Cause::OtherFormula | Cause::BadEntry | Cause::TableFull =>
                Layer::Certificate,
            Cause::RootUncovered | Cause::EntryUnsupported => Layer::Check,
            Cause::BadPosition
            | Cause::StoreFull { .. }
            | Cause::RootUndecided
            | Cause::BufferShort { .. }
            | Cause::BadLevel => Layer::Session,
            Cause::BadValue => Layer::Play,
            Cause::InputTooLong => Layer::Program,
        }
    }

    // The number of this cause, one for each.
    pub fn number(self) -> u8
        ensures { result ≡ number_of self }
    {
        match self {
            Cause::FormulaForm => 1,
            Cause::OverLimit => 2,
            Cause::BadVariable => 3,
            Cause::BadAlternation => 4,
            Cause::UnboundVariable => 5,
            Cause::ClauseCount => 6,
            Cause::CertificateForm => 10,
            Cause::OtherFormula => 11,
            Cause::BadEntry => 12,
            Cause::TableFull => 13,
            Cause::RootUncovered => 20,
            Cause::EntryUnsupported => 21,
            Cause::BadPosition => 30,
            Cause::StoreFull { .. } => 31,
            Cause::RootUndecided => 32,
            Cause::BufferShort { .. } => 33,
            Cause::BadLevel => 34,
            Cause::BadValue => 40,
            Cause::InputTooLong => 50,
        }
    }
}

// A cause in words, with what to change.
fn words(cause: Cause) -> &'static str {
    match cause {
        Cause::FormulaForm =>
            "a line is not of the form that is due here, or the text ends before its line 'p'",
        Cause::OverLimit =>
            "too large: at most 64 variables, 128 clauses, 16 blocks and 12 variables in a block",
        Cause::BadVariable =>
            "a variable is above the count in line 'p', or stands in the blocks twice",
        Cause::BadAlternation =>
            "blocks have to alternate, and after a universal block comes an existential one",
        Cause::UnboundVariable => "a literal's variable stands in no block: bind it in one",
        Cause::ClauseCount =>
            "there have to be exactly as many clause lines as line 'p' says, and nothing after them",
        Cause::CertificateForm =>
            "a line is not of the form that is due here, or the text ends before its line 3",
        Cause::OtherFormula =>
            "the counts of blocks and clauses are not the formula's: is this its certificate?",
        Cause::BadEntry =>
            "the entry does not fit the formula: look at its level, its clauses and its reply",
        Cause::TableFull => "there are more entries than places in the table: lend a larger one",
        Cause::RootUncovered => "no entry covers the root: the certificate decides nothing",
        Cause::EntryUnsupported => "an entry is not supported by the entries of the next level",
        Cause::BadPosition =>
            "more blocks are decided than there are, or the word has a 1 off their variables",
        Cause::StoreFull { .. } =>
            "a store is full: begin with a larger table, or forget some levels",
        Cause::RootUndecided => "neither store covers the root yet: query it first",
        Cause::BufferShort { .. } => "the buffer is shorter than the text: lend a larger one",
        Cause::BadLevel => "there is no such level: levels go from 1 to the number of blocks",
        Cause::BadValue =>
            "the value is too large for its block: below 2 to the power of its width",
        Cause::InputTooLong => "the input is longer than 32768 bytes",
    }
}

impl fmt::Display for Cause {
    fn fmt<W: fmt::Write>(&self, f: &mut fmt::Formatter<W>) -> fmt::Result {
        f.write_str(words(*self))
    }
}
