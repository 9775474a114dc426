ghost use Rattle.std.specs.Prelude.{◌≡◌, is_ok, IfOk, OnOk};
ghost use Rattle.std.specs.Result.{result_err};
ghost use Rattle.truth.specs.Truth.{holds};
ghost use Rattle.truth.specs.Plain.{holds_plainly};
ghost use Rattle.truth.specs.Verdicts.{is_true};
ghost use Rattle.qbf.specs.Held.{qbf_of};
ghost use Rattle.certificate.specs.Accepting.{accepts};
ghost use Rattle.certificate.specs.Faults.{fault_in};

use crate::accepted::Accepted;
use crate::checker::Checker;
use crate::index::Index;
use entries::entry::Entry;
use faults::cause::Cause;
use faults::fault::Fault;
use qbf::formula::Formula;
use truth::verdict::Verdict;

// The line of a certificate in which its first entry stands.
const FIRST_LINE: usize = 4;

// Checks entries from whatever hand against a formula and a verdict on it. Accepted entries tell the truth: the verdict
// is then what quantifier recursion gives the formula, over blocks and over single variables alike.
pub fn check<'a>(
    formula: &'a Formula,
    verdict: Verdict,
    entries: &'a [Entry],
) -> Result<Accepted<'a>, Fault>
    ensures fault { result_err result ≡ fault_in (qbf_of formula.now) (is_true verdict) entries.now }
    ensures accepts { is_ok result ≡ accepts (qbf_of formula.now) (is_true verdict) entries.now }
    ensures keeps { IfOk result (λ a. (a.formula.now ≡ formula.now) × (a.verdict ≡ verdict) × (a.entries.now ≡ entries.now)) }
    ensures truth { OnOk result ((holds (qbf_of formula.now) ≡ is_true verdict) × (holds_plainly (qbf_of formula.now) ≡ is_true verdict)) }
{
    let checker = Checker {
        formula,
        verdict,
        index: Index::of(entries),
    };
    if !checker.is_reached(1, formula.root(verdict)) {
        return Err(Fault::from(Cause::RootUncovered));
    }
    for (i, entry) in entries.iter().enumerate() {
        if !checker.is_supported(*entry) {
            return Err(Fault::new(Cause::EntryUnsupported, i + FIRST_LINE));
        }
    }
    Ok(Accepted {
        formula,
        verdict,
        entries,
    })
}
