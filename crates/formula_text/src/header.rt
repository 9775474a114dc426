ghost use Rattle.std.specs.Prelude.{◌≡◌, Ok, Err, MatchResult};
ghost use Rattle.std.specs.Option.{ok_or};
ghost use Rattle.text.specs.Left.{fields_left};
ghost use Rattle.text.specs.Taken.{Took};
ghost use Rattle.formula_text.specs.Parse.{take_letter, take_cnf, header_of, read_header};

use crate::counts::{Counts, Header};
use faults::cause::Cause;
use faults::fault::Fault;
use text::fields::Fields;
use truth::limits::{MAX_CLAUSES, MAX_VARIABLES};

// Takes the first field, which is one letter.
pub(crate) fn take_letter(fields: &mut Fields) -> Result<(), Fault>
    ensures { Took fields.old fields.new result (take_letter (fields_left fields.old)) (λ _. fields_left fields.new) }
{
    match fields.field()? {
        [_] => Ok(()),
        _ => Err(fields.fault()),
    }
}

// Takes the word `cnf`.
fn take_cnf(fields: &mut Fields) -> Result<(), Fault>
    ensures { Took fields.old fields.new result (take_cnf (fields_left fields.old)) (λ _. fields_left fields.new) }
{
    match fields.field()? {
        [b'c', b'n', b'f'] => Ok(()),
        _ => Err(fields.fault()),
    }
}

// The counts of a line `p cnf V C`.
fn counts_of(line: &[u8], fault: Fault) -> Result<Counts, Fault>
    ensures { result ≡ ok_or (header_of line.now) fault }
{
    let mut fields = Fields::of(line, fault)?;
    take_letter(&mut fields)?;
    take_cnf(&mut fields)?;
    let variables = fields.number()?;
    let clauses = fields.number()?;
    fields.end()?;
    Ok(Counts { variables, clauses })
}

// Reads the line `p`, on line n.
pub(crate) fn read_header(line: &[u8], n: usize) -> Result<Header, Fault>
    ensures { MatchResult result (λ h. read_header n line.now ≡ Ok h.counts) (λ e. read_header n line.now ≡ Err e) }
{
    let counts = counts_of(line, Fault::new(Cause::FormulaForm, n))?;
    if counts.variables > MAX_VARIABLES || counts.clauses as usize > MAX_CLAUSES {
        return Err(Fault::new(Cause::OverLimit, n));
    }
    Ok(Header { counts })
}
