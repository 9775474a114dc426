// What an entry must be, to stand in a certificate.
ghost use Rattle.std.specs.Prelude.{◌≡◌, ◌^◌, length, nat_lt};
ghost use Rattle.truth.specs.Verdicts.{is_true};
ghost use Rattle.qbf.specs.Held.{qbf_of};
ghost use Rattle.entries.specs.Fitting.{replies, fits};
ghost use Rattle.certificate.specs.Accepting.{blocks_from};

use crate::checker::Checker;
use crate::levels::{is_value, mover_at};
use crate::mover::Mover;
use entries::entry::{Entry, Reply};
use truth::limits::MAX_CLAUSES;

impl<'a> Checker<'a> {
    // Whether an entry has a reply just where one is owed, and then a value of its block.
    fn has_reply_due(&self, entry: Entry) -> bool
        ensures { result ≡ replies (is_true self.now.verdict) (blocks_from (qbf_of self.now.formula.now) entry.level) entry.reply }
    {
        let level = entry.level as usize;
        match (mover_at(self.formula, self.verdict, level), entry.reply) {
            (Some(Mover::Holder), Reply::Value(value)) => is_value(self.formula, level, value),
            (Some(Mover::Other), Reply::None) => true,
            _ => false,
        }
    }

    // Whether all members of a set are clauses of the formula.
    fn has_clauses(&self, set: u128) -> bool
        ensures { result ≡ nat_lt set (2 ^ length (qbf_of self.now.formula.now).matrix) }
    {
        let clauses = self.formula.clauses();
        clauses >= MAX_CLAUSES || set >> clauses == 0
    }

    // Whether an entry can stand in a certificate of the formula.
    pub(crate) fn fits(&self, entry: Entry) -> bool
        ensures { result ≡ fits (is_true self.now.verdict) (qbf_of self.now.formula.now) entry }
    {
        entry.level >= 1 && self.has_clauses(entry.set) && self.has_reply_due(entry)
    }
}
