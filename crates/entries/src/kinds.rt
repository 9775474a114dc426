ghost use Rattle.std.specs.Prelude.{◌≡◌, ◌≤◌, false, true, MatchResult};
ghost use Rattle.antichain.specs.Limits.{max_level};
ghost use Rattle.entries.specs.declared.entry.Entry.{Entry};
ghost use Rattle.entries.specs.Covering.{storable};
ghost use Rattle.entries.specs.Lawful.{CoversFor, covers_for};

use crate::entry::Entry;
use antichain::entry::Entry as Kind;
use antichain::kind::{Covering, LeveledSet};
use antichain::limits::MAX_LEVEL;
use std::error::Error;
use std::fmt;

// An entry at a level that stores know, from 1 to 16.
#[derive(Clone, Copy, Debug)]
pub struct Storable {
    entry: Entry,
    ghost range: { (1 ≤ entry.level) × (entry.level ≤ max_level) },
}

// An entry for true: it covers the sets that lie inside its own.
pub type Winning = Covering<Storable, true>;

// An entry for false: it covers the sets that its own lies inside.
pub type Losing = Covering<Storable, false>;

// A kind of entries for true: they cover as those of certificates do, the sets inside theirs.
pub trait ForTrue: Kind {
    ghost entry: { Self → Entry };

    ghost certified: { CoversFor true entry Self.Entry.covers Self.Entry.before };
}

// A kind of entries for false: they cover as those of certificates do, the sets around theirs.
pub trait ForFalse: Kind {
    ghost entry: { Self → Entry };

    ghost certified: { CoversFor false entry Self.Entry.covers Self.Entry.before };
}

impl ForTrue for Winning {
    ghost entry = { λ w. w.0.entry };

    ghost certified = { covers_for true (λ w. w.0.entry) (λ w. w.0.range) };
}

impl ForFalse for Losing {
    ghost entry = { λ l. l.0.entry };

    ghost certified = { covers_for false (λ l. l.0.entry) (λ l. l.0.range) };
}

// A level that stores do not know.
#[derive(Clone, Copy, Debug, PartialEq, Eq)]
pub struct UnknownLevel(pub u8);

impl fmt::Display for UnknownLevel {
    fn fmt<W: fmt::Write>(&self, f: &mut fmt::Formatter<W>) -> fmt::Result {
        write!(f, "no store has a level {}", self.0)
    }
}

impl Error for UnknownLevel {}

impl TryFrom<Entry> for Storable {
    type Error = UnknownLevel;

    ghost try_from_gives = { λ e r. MatchResult r (λ s. (s.entry ≡ e) × (storable e ≡ true)) (λ x. (x.0 ≡ e.level) × (storable e ≡ false)) };

    fn try_from(entry: Entry) -> Result<Storable, UnknownLevel> {
        if entry.level < 1 || entry.level as usize > MAX_LEVEL {
            return Err(UnknownLevel(entry.level));
        }
        Ok(Storable { entry })
    }
}

impl From<Storable> for Entry {
    ghost from_gives = { λ s e. e ≡ s.entry };

    fn from(storable: Storable) -> Entry {
        storable.entry
    }
}

impl LeveledSet for Storable {
    ghost level = { λ x. x.entry.level };

    ghost set = { λ x. x.entry.set };

    ghost range = { λ x. x.range };

    fn level(&self) -> u8 {
        self.entry.level
    }

    fn set(&self) -> u128 {
        self.entry.set
    }

    // By the name of the kind, with the entry.
    fn fmt_kind<W: fmt::Write>(
        &self,
        inside: bool,
        f: &mut fmt::Formatter<W>,
    ) -> Option<fmt::Result> {
        let name = if inside { "Winning" } else { "Losing" };
        Some(f.debug_struct(name).field("entry", &self.entry).finish())
    }
}

impl<const INSIDE: bool> TryFrom<Entry> for Covering<Storable, INSIDE> {
    type Error = UnknownLevel;

    ghost try_from_gives = { λ e r. MatchResult r (λ w. (w.0.entry ≡ e) × (storable e ≡ true)) (λ x. (x.0 ≡ e.level) × (storable e ≡ false)) };

    fn try_from(entry: Entry) -> Result<Self, UnknownLevel> {
        Ok(Covering(Storable::try_from(entry)?))
    }
}

impl<const INSIDE: bool> From<Covering<Storable, INSIDE>> for Entry {
    ghost from_gives = { λ w e. e ≡ w.0.entry };

    fn from(kept: Covering<Storable, INSIDE>) -> Entry {
        kept.0.entry
    }
}
