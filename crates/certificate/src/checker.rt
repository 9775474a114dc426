ghost use Rattle.std.specs.Prelude.{◌≡◌, true};
ghost use Rattle.truth.specs.Verdicts.{is_true};
ghost use Rattle.qbf.specs.Held.{qbf_of};
ghost use Rattle.entries.specs.declared.entry.Reply.TheVariants.{None};
ghost use Rattle.entries.specs.Fitting.{fits};
ghost use Rattle.certificate.specs.Accepting.{blocks_from, reached, leads_on, upheld, supported};
ghost use Rattle.certificate.specs.Movers.{value_due};

mod fitting;

use crate::index::Index;
use entries::entry::{Entry, Reply};
use qbf::formula::Formula;
use truth::verdict::Verdict;

// What a check goes by: the formula, the verdict on it, and the entries by their levels.
#[derive(Drop)]
pub(crate) struct Checker<'a> {
    pub(crate) formula: &'a Formula,
    pub(crate) verdict: Verdict,
    pub(crate) index: Index<'a>,
}

impl<'a> Checker<'a> {
    // Whether a position is covered: by an entry, or by itself where no block is left.
    pub(crate) fn is_reached(&self, level: usize, set: u128) -> bool
        ensures { result ≡ reached (is_true self.now.verdict) self.now.index.entries.now (blocks_from (qbf_of self.now.formula.now) level) level set }
    {
        if self.formula.quantifier(level).is_none() {
            return Verdict::from(set == 0) == self.verdict;
        }
        self.index.covering(self.verdict, level, set).is_some()
    }

    // Whether what a value leaves of an entry's set is covered one level on.
    fn leads_on(&self, entry: Entry, value: u16) -> bool
        ensures { result ≡ leads_on (is_true self.now.verdict) (qbf_of self.now.formula.now).matrix self.now.index.entries.now (blocks_from (qbf_of self.now.formula.now) entry.level) entry.level entry.set value }
    {
        let level = entry.level as usize;
        let Some(rest) = self.formula.rest(level, value, entry.set) else {
            return false;
        };
        self.is_reached(level + 1, rest)
    }

    // Whether every value of the other side's block at an entry's level leads on. The candidates decide it: what any
    // value leaves lies inside what one of them leaves, or on false around it.
    fn every_leads_on(&self, entry: Entry) -> bool
        requires { value_due (is_true self.now.verdict) (blocks_from (qbf_of self.now.formula.now) entry.level) ≡ true }
        ensures { result ≡ upheld (is_true self.now.verdict) (qbf_of self.now.formula.now).matrix self.now.index.entries.now (blocks_from (qbf_of self.now.formula.now) entry.level) entry.level entry.set None }
    {
        let level = entry.level as usize;
        let mut from = 0;
        // An iterator of candidates would hold the formula, the level, the set and `from`, and need laws of its own: no plainer
        // than to ask for the next one from where the last was.
        while let Some(candidate) = self.formula.next_candidate(level, entry.set, from) {
            if !self.is_reached(level + 1, candidate.rest) {
                return false;
            }
            from = candidate.value + 1;
        }
        true
    }

    // Whether an entry that fits leads on: by its reply, or without one by every value.
    fn is_upheld(&self, entry: Entry) -> bool
        requires { fits (is_true self.now.verdict) (qbf_of self.now.formula.now) entry ≡ true }
        ensures { result ≡ upheld (is_true self.now.verdict) (qbf_of self.now.formula.now).matrix self.now.index.entries.now (blocks_from (qbf_of self.now.formula.now) entry.level) entry.level entry.set entry.reply }
    {
        match entry.reply {
            Reply::Value(value) => self.leads_on(entry, value),
            Reply::None => self.every_leads_on(entry),
        }
    }

    // Whether an entry is supported.
    pub(crate) fn is_supported(&self, entry: Entry) -> bool
        ensures { result ≡ supported (is_true self.now.verdict) (qbf_of self.now.formula.now) self.now.index.entries.now entry }
    {
        self.fits(entry) && self.is_upheld(entry)
    }
}
