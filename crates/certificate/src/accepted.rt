ghost use Rattle.std.specs.Prelude.{◌≡◌, true};
ghost use Rattle.truth.specs.Truth.{holds};
ghost use Rattle.truth.specs.Plain.{holds_plainly};
ghost use Rattle.truth.specs.Verdicts.{is_true};
ghost use Rattle.qbf.specs.Held.{qbf_of};
ghost use Rattle.certificate.specs.Accepting.{accepts};

use entries::entry::Entry;
use qbf::formula::Formula;
use truth::verdict::Verdict;

// Entries that the check has accepted, with the formula and the verdict that they were checked against. Only the check
// makes one.
#[derive(Clone, Copy, Drop)]
pub struct Accepted<'a> {
    pub(crate) formula: &'a Formula,
    pub(crate) verdict: Verdict,
    pub(crate) entries: &'a [Entry],
    ghost ok: { accepts (qbf_of formula.now) (is_true verdict) entries.now ≡ true },
}

impl<'a> Accepted<'a> {
    // The formula that the entries were checked against.
    pub fn formula(&self) -> &'a Formula
        ensures { result.now ≡ self.now.formula.now }
    {
        self.formula
    }

    // The verdict that the entries show: it is the formula's truth.
    pub fn verdict(&self) -> Verdict
        ensures kept { result ≡ self.now.verdict }
        ensures blocks { holds (qbf_of self.now.formula.now) ≡ is_true result }
        ensures plainly { holds_plainly (qbf_of self.now.formula.now) ≡ is_true result }
    {
        self.verdict
    }

    // The entries, in the order in which they were handed in.
    pub fn entries(&self) -> &'a [Entry]
        ensures { result.now ≡ self.now.entries.now }
    {
        self.entries
    }
}
