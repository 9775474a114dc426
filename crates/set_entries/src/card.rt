ghost use Rattle.std.specs.Prelude.{◌≡◌, ◌≤◌, min, max};
ghost use Rattle.antichain.specs.Limits.{max_level};

use antichain::kind::LeveledSet;
use antichain::limits::MAX_LEVEL;
use std::fmt;

// A set of numbers below 128, as a number with a bit for each, at a level from 1 to 16.
// The payload plays no part in covering and order.
#[derive(Clone, Copy)]
pub struct Card {
    set: u128,
    level: u8,
    payload: u16,
    ghost range: { (1 ≤ level) × (level ≤ max_level) },
}

impl Card {
    // The level is brought into its range.
    pub fn new(level: u8, set: u128, payload: u16) -> Card
        ensures level { result.level ≡ min (max level 1) max_level }
        ensures set { result.set ≡ set }
        ensures payload { result.payload ≡ payload }
    {
        Card {
            set,
            level: level.clamp(1, MAX_LEVEL as u8),
            payload,
        }
    }

    pub fn payload(&self) -> u16
        ensures { result ≡ self.now.payload }
    {
        self.payload
    }
}

impl LeveledSet for Card {
    ghost level = { λ x. x.level };

    ghost set = { λ x. x.set };

    ghost range = { λ x. x.range };

    fn level(&self) -> u8 {
        self.level
    }

    fn set(&self) -> u128 {
        self.set
    }
}

impl fmt::Display for Card {
    // As level:set/payload.
    fn fmt<W: fmt::Write>(&self, f: &mut fmt::Formatter<W>) -> fmt::Result {
        let level = self.level;
        let set = self.set;
        let payload = self.payload;
        write!(f, "{level}:{set}/{payload}")
    }
}

impl fmt::Debug for Card {
    // The same, as lists of calls print it.
    fn fmt<W: fmt::Write>(&self, f: &mut fmt::Formatter<W>) -> fmt::Result {
        write!(f, "{self}")
    }
}
