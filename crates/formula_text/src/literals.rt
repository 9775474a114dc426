ghost use Rattle.std.specs.Prelude.{◌≡◌, ◌<◌, OnOk};
ghost use Rattle.text.specs.Left.{fields_left, bytes_left};
ghost use Rattle.formula_text.specs.Literals.{literal_of, Yields};

use faults::fault::Fault;
use text::fields::Fields;
use text::number::number;
use truth::literal::Literal;

// The literal that a field writes, or 0.
fn literal(field: &[u8]) -> Option<Literal>
    ensures { result ≡ literal_of field.now }
{
    let (first, digits) = field.split_first()?;
    if *first != b'-' {
        return Some(Literal {
            negative: false,
            variable: number(field)?,
        });
    }
    let variable = number(digits)?;
    if variable == 0 {
        return None;
    }
    Some(Literal {
        negative: true,
        variable,
    })
}

// The next literal of a line that 0 ends, or none once that has come.
pub(crate) fn next_literal(fields: &mut Fields) -> Result<Option<Literal>, Fault>
    ensures yields { Yields fields.old.fault (fields_left fields.old) (fields_left fields.new) result }
    ensures shorter { OnOk result (bytes_left fields.new < bytes_left fields.old) }
    ensures fault { fields.new.fault ≡ fields.old.fault }
{
    let next = literal(fields.field()?).ok_or(fields.fault())?;
    if next.variable == 0 {
        fields.end()?;
        return Ok(None);
    }
    Ok(Some(next))
}
