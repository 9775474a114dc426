ghost use Rattle.std.specs.Prelude.{◌<◌, [], ◌∷◌, ◌++◌, length, ◌≤◌};
ghost use Rattle.truth.specs.Limits.{max_clauses};
ghost use Rattle.qbf.specs.Held.{qbf_of};
ghost use Rattle.certificate_text.specs.CertificateText.{clauses_from, listed_numbers, set_text, reply_text, entry_text};
ghost use Rattle.certificate_text.specs.Writing.{Wrote, max_line};

use crate::writer::Writer;
use entries::entry::{Entry, Reply};
use qbf::formula::Formula;

impl Writer<'_> {
    // Puts the clauses of a set among the first ones, joined by commas.
    fn clauses(&mut self, clauses: usize, set: u128)
        requires { clauses ≤ max_clauses }
        ensures { Wrote self.old self.new (listed_numbers [] (clauses_from 1 clauses set)) }
    {
        let mut before: &[u8] = b"";
        let mut rest = set;
        // Over the clauses, and not over those of the set: what is left of the set is halved with each.
        for k in 0..clauses {
            if rest % 2 == 1 {
                self.bytes(before);
                self.number(k as u32 + 1);
                before = b",";
            }
            rest /= 2;
        }
    }

    // Puts a set.
    fn set(&mut self, clauses: usize, set: u128)
        requires { clauses ≤ max_clauses }
        ensures { Wrote self.old self.new (set_text clauses set) }
    {
        if set == 0 {
            self.byte(b'-');
        } else {
            self.clauses(clauses, set);
        }
    }

    // Puts a reply for a block of this width.
    fn reply(&mut self, width: usize, reply: Reply)
        ensures { Wrote self.old self.new (reply_text width reply) }
    {
        match reply {
            Reply::None => self.byte(b'-'),
            Reply::Value(value) => self.binary(width, value),
        }
    }

    // Puts an entry's line.
    pub(crate) fn entry(&mut self, formula: &Formula, entry: Entry)
        ensures wrote { Wrote self.old self.new (entry_text (qbf_of formula.now) entry ++ (10 ∷ [])) }
        ensures short { length (entry_text (qbf_of formula.now) entry) < max_line }
    {
        let width = formula.width(entry.level as usize).unwrap_or(0);
        self.number(entry.level as u32);
        self.byte(b' ');
        self.set(formula.clauses(), entry.set);
        self.byte(b' ');
        self.reply(width, entry.reply);
        self.byte(b'\n');
    }
}
