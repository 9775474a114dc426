ghost use Rattle.std.specs.Prelude.{◌≡◌, ◌≤◌, ◌==◌, bit_and, bit_or};
ghost use Rattle.std.specs.Option.{ok_or, option_map};
ghost use Rattle.qbf.specs.Held.{blocks_in};
ghost use Rattle.formula_text.specs.Gathered.{nothing, gathered};
ghost use Rattle.formula_text.specs.Parse.{clause_literals, read_clause};

use crate::counts::Header;
use crate::gather::{Gathered, gather};
use faults::cause::Cause;
use faults::fault::Fault;
use qbf::prefix::Prefix;
use text::fields::Fields;
use truth::literal::Clause;

// The literals of a clause line.
fn literals_of(line: &[u8], fault: Fault) -> Result<Gathered, Fault>
    ensures { result ≡ ok_or (option_map (gathered nothing) (clause_literals line.now)) fault }
{
    let mut fields = Fields::of(line, fault)?;
    gather(&mut fields)
}

// Whether all literals of a clause are bound.
fn is_closed(clause: Clause, bound: u64) -> bool
    ensures { result ≡ (bit_and (bit_or clause.positive clause.negative) bound == bit_or clause.positive clause.negative) }
{
    let used = clause.positive | clause.negative;
    used & bound == used
}

// Reads a clause line, on line n.
pub(crate) fn read_clause(
    line: &[u8],
    n: usize,
    header: Header,
    prefix: &Prefix,
) -> Result<Clause, Fault>
    ensures { result ≡ read_clause n header.counts (blocks_in prefix.now) line.now }
{
    let literals = literals_of(line, Fault::new(Cause::FormulaForm, n))?;
    if literals.highest > header.counts.variables {
        return Err(Fault::new(Cause::BadVariable, n));
    }
    if !is_closed(literals.clause, prefix.bound) {
        return Err(Fault::new(Cause::UnboundVariable, n));
    }
    Ok(literals.clause)
}
