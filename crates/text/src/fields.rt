ghost use Rattle.std.specs.Prelude.{◌≡◌, ◌<◌, ◌≤◌, [], ◌∷◌, length, Some, None, MatchOption, MatchResult};
ghost use Rattle.text.specs.Left.{fields_left, bytes_left};
ghost use Rattle.text.specs.Rows.{padded, fields_of};
ghost use Rattle.text.specs.Taken.{others, take_field, take_number, ended, Took};

use crate::cut::cut;
use crate::number::number;
use faults::fault::Fault;

// Whether a line begins or ends with a space.
fn is_padded(line: &[u8]) -> bool
    ensures { result ≡ padded line.now }
{
    line.first() == Some(&b' ') || line.last() == Some(&b' ')
}

// A line of which some fields have been taken, and the fault due where one is not as it must be.
#[derive(Drop)]
pub struct Fields<'a> {
    rest: &'a [u8],
    fault: Fault,
}

impl<'a> Fields<'a> {
    // The fields of a line, which neither begins nor ends with a space.
    pub fn of(line: &'a [u8], fault: Fault) -> Result<Fields<'a>, Fault>
        ensures { MatchResult result (λ f. (fields_of line.now ≡ Some (fields_left f)) × (bytes_left f ≤ length line.now) × (f.fault ≡ fault)) (λ e. (fields_of line.now ≡ None) × (e ≡ fault)) }
    {
        if is_padded(line) {
            return Err(fault);
        }
        Ok(Fields { rest: line, fault })
    }

    // The fault that was given with the line.
    pub fn fault(&self) -> Fault
        ensures { result ≡ self.now.fault }
    {
        self.fault
    }

    // The next field, or none at the line's end.
    pub fn next(&mut self) -> Option<&'a [u8]>
        ensures cases { MatchOption result ((fields_left self.old ≡ []) × (bytes_left self.new ≤ bytes_left self.old)) (λ f. (fields_left self.old ≡ f.now ∷ fields_left self.new) × (bytes_left self.new < bytes_left self.old)) }
        ensures left { fields_left self.new ≡ others (fields_left self.old) }
        ensures fault { self.new.fault ≡ self.old.fault }
    {
        while !self.rest.is_empty() {
            let (field, after) = cut(self.rest, b' ');
            self.rest = after;
            if !field.is_empty() {
                return Some(field);
            }
        }
        None
    }

    // The next field, which has to be there.
    pub fn field(&mut self) -> Result<&'a [u8], Fault>
        ensures cases { MatchResult result (λ f. (take_field (fields_left self.old) ≡ Some (f.now, fields_left self.new)) × (bytes_left self.new < bytes_left self.old)) (λ e. (take_field (fields_left self.old) ≡ None) × (e ≡ self.old.fault)) }
        ensures left { fields_left self.new ≡ others (fields_left self.old) }
        ensures fault { self.new.fault ≡ self.old.fault }
    {
        self.next().ok_or(self.fault)
    }

    // The number in the next field.
    pub fn number(&mut self) -> Result<u32, Fault>
        ensures cases { Took self.old self.new result (take_number (fields_left self.old)) (λ n. (n, fields_left self.new)) }
        ensures left { fields_left self.new ≡ others (fields_left self.old) }
    {
        let field = self.field()?;
        number(field).ok_or(self.fault)
    }

    // No field may be left.
    pub fn end(&mut self) -> Result<(), Fault>
        ensures cases { Took self.old self.new result (ended (fields_left self.old)) (λ _. tt) }
        ensures left { fields_left self.new ≡ others (fields_left self.old) }
        ensures shorter { bytes_left self.new ≤ bytes_left self.old }
    {
        if self.next().is_some() {
            return Err(self.fault);
        }
        Ok(())
    }
}
