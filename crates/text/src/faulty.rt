ghost use Rattle.text.specs.Faulty.{Hands, line_at, faulty_line};
ghost use Rattle.text.specs.Rows.{lines_of};

use crate::lines::Lines;
use faults::cause::Cause;
use faults::fault::Fault;
use faults::layer::Layer;

// The k-th line of a text, k from 1, without its byte 10.
fn nth_line(text: &[u8], k: usize) -> Option<&[u8]>
    ensures { Hands result (line_at k (lines_of text.now)) }
{
    let mut lines = Lines::new(text);
    while let Some(line) = lines.next() {
        if lines.line() == k {
            return Some(line);
        }
    }
    None
}

// The line that a fault stands in, as a part of the text that has it, or none where it stands in neither.
pub fn faulty_line<'a>(fault: Fault, formula: &'a [u8], certificate: &'a [u8]) -> Option<&'a [u8]>
    ensures { Hands result (faulty_line fault formula.now certificate.now) }
{
    let text = match (fault.layer(), fault.cause) {
        (Layer::Formula, _) => formula,
        (Layer::Certificate, _) | (Layer::Check, Cause::EntryUnsupported) => certificate,
        _ => return None,
    };
    nth_line(text, fault.line)
}
