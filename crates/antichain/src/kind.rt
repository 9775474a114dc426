// Entries that cover by inclusion of sets.
ghost use Rattle.std.specs.Prelude.{◌≡◌, ℕ, ◌≤◌};
ghost use Rattle.antichain.specs.Limits.{max_level};
ghost use Rattle.antichain.specs.Entries.{comes_before, covers_by};
ghost use Rattle.antichain.specs.Inclusion.{inside, covering, covering_itself, covering_on, covering_both, rules_by};

use crate::entry::Entry;
use std::fmt;

// A set of numbers below 128, as a number with a bit for each, at a level from 1 to 16.
pub trait LeveledSet: Copy {
    ghost level: { Self → ℕ };

    ghost set: { Self → ℕ };

    fn level(&self) -> u8
        ensures { result ≡ level self.now };

    fn set(&self) -> u128
        ensures { result ≡ set self.now };

    // Prints a kind of it, where the kinds print otherwise than what they are made of.
    fn fmt_kind<W: fmt::Write>(
        &self,
        _inside: bool,
        _f: &mut fmt::Formatter<W>,
    ) -> Option<fmt::Result> {
        None
    }

    ghost range: { (x : Self) → (1 ≤ level x) × (level x ≤ max_level) };
}

// Whether each member of s is one of t.
fn is_inside(s: u128, t: u128) -> bool
    ensures { result ≡ inside s t }
{
    s & t == s
}

// A kind of entry: with INSIDE it covers the sets that lie inside its own, and else those that its own lies inside.
#[derive(Clone, Copy)]
pub struct Covering<T, const INSIDE: bool>(pub T);

impl<T: LeveledSet + fmt::Debug, const INSIDE: bool> fmt::Debug for Covering<T, INSIDE> {
    fn fmt<W: fmt::Write>(&self, f: &mut fmt::Formatter<W>) -> fmt::Result {
        match self.0.fmt_kind(INSIDE, f) {
            Some(printed) => printed,
            None => self.0.fmt(f),
        }
    }
}

impl<T: LeveledSet, const INSIDE: bool> Entry for Covering<T, INSIDE> {
    ghost level = { λ x. T.level x.0 };

    ghost set = { λ x. T.set x.0 };

    ghost covers = { λ x y. covers_by (covering INSIDE) (T.level x.0) (T.set x.0) (T.level y.0) (T.set y.0) };

    ghost before = { λ x y. comes_before (T.level x.0) (T.set x.0) (T.level y.0) (T.set y.0) };

    ghost rules = { rules_by (covering INSIDE) (λ x. T.level x.0) (λ x. T.set x.0) (λ x. T.range x.0) (covering_itself INSIDE) (covering_on INSIDE) (covering_both INSIDE) };

    fn level(&self) -> u8 {
        self.0.level()
    }

    fn covers(&self, other: &Self) -> bool {
        self.0.level() == other.0.level()
            && if INSIDE {
                is_inside(other.0.set(), self.0.set())
            } else {
                is_inside(self.0.set(), other.0.set())
            }
    }

    fn before(&self, other: &Self) -> bool {
        (self.0.level(), self.0.set()) < (other.0.level(), other.0.set())
    }
}
