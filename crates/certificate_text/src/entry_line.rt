ghost use Rattle.std.specs.Prelude.{◌≡◌};
ghost use Rattle.truth.specs.Verdicts.{is_true};
ghost use Rattle.qbf.specs.Held.{qbf_of};
ghost use Rattle.certificate_text.specs.Bits.{field_of};
ghost use Rattle.certificate_text.specs.Parse.{entry_of, read_entry};

use crate::bits::Bits;
use crate::reply_field::{reply_of, take_reply};
use crate::set_field::take_set;
use entries::entry::Entry;
use faults::cause::Cause;
use faults::fault::Fault;
use qbf::formula::Formula;
use text::fields::Fields;
use truth::verdict::Verdict;

// The entry that fields of the right form write, or none where it does not fit the formula.
fn entry_of(
    formula: &Formula,
    verdict: Verdict,
    level: u32,
    set: Option<u128>,
    reply: Option<Bits>,
) -> Option<Entry>
    ensures { result ≡ entry_of (qbf_of formula.now) (is_true verdict) (record { level = level; set = set; reply = field_of reply.entry }) }
{
    let quantifier = formula.quantifier(level as usize)?;
    let width = formula.width(level as usize)?;
    let set = set?;
    let reply = reply_of(reply, verdict.owes(quantifier), width)?;
    Some(Entry {
        level: level as u8,
        set,
        reply,
    })
}

// Reads an entry line, on line n.
pub(crate) fn read_entry(
    line: &[u8],
    n: usize,
    formula: &Formula,
    verdict: Verdict,
) -> Result<Entry, Fault>
    ensures { result ≡ read_entry n (qbf_of formula.now) (is_true verdict) line.now }
{
    let mut fields = Fields::of(line, Fault::new(Cause::CertificateForm, n))?;
    let level = fields.number()?;
    let set = take_set(&mut fields, formula.clauses())?;
    let reply = take_reply(&mut fields)?;
    fields.end()?;
    entry_of(formula, verdict, level, set, reply).ok_or(Fault::new(Cause::BadEntry, n))
}
