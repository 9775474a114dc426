ghost use Rattle.std.specs.Prelude.{◌≡◌, ◌≤◌};
ghost use Rattle.std.specs.Option.{option_map};
ghost use Rattle.text.specs.Left.{fields_left};
ghost use Rattle.text.specs.Taken.{Took};
ghost use Rattle.truth.specs.Limits.{max_clauses};
ghost use Rattle.certificate_text.specs.SetField.{pieces, numerals, clauses_of, set_up_to, take_set};
ghost use Rattle.certificate_text.specs.Gathering.{further};

use faults::fault::Fault;
use std::marker::Model;
use text::fields::Fields;
use text::number::number;

// A set of clauses that were gathered in ascending order, and the last of them.
#[derive(Drop)]
struct Gathered {
    set: u128,
    last: u32,
}

impl Model for Gathered {
    ghost use Rattle.std.specs.Prelude.{ℕ, ◌^◌, ◌<◌, ◌≤◌};
    ghost use Rattle.truth.specs.Limits.{max_clauses};

    ghost Value = { ℕ × ℕ };

    ghost view = { λ g. (g.set, g.last) };

    ghost invariant = { λ g. (g.set < 2 ^ g.last) × (g.last ≤ max_clauses) };
}

impl Gathered {
    // One clause more, which has to be above the last and not above the highest.
    fn with(self, clause: u32, highest: usize) -> Option<Gathered>
        requires { highest ≤ max_clauses }
        ensures { result ≡ further highest self clause }
    {
        if clause <= self.last || clause as usize > highest {
            return None;
        }
        Some(Gathered {
            set: self.set + (1 << (clause - 1)),
            last: clause,
        })
    }
}

// Reads numbers joined by commas. The set is none where one is out of range or order.
fn gather(field: &[u8], highest: usize) -> Option<Option<u128>>
    requires { highest ≤ max_clauses }
    ensures { result ≡ option_map (set_up_to highest) (numerals (pieces field.now)) }
{
    let mut all = Some(Gathered { set: 0, last: 0 });
    for piece in field.split(|b| *b == b',') {
        let clause = number(piece)?;
        all = all.and_then(|g| g.with(clause, highest));
    }
    Some(all.map(|g| g.set))
}

// Reads the set field of an entry line. The set is none where a clause is out of range or order.
fn read_set(field: &[u8], highest: usize) -> Option<Option<u128>>
    requires { highest ≤ max_clauses }
    ensures { result ≡ option_map (set_up_to highest) (clauses_of field.now) }
{
    match field {
        b"-" => Some(Some(0)),
        _ => gather(field, highest),
    }
}

// Takes the set field, and hands it to the set reader.
pub(crate) fn take_set(fields: &mut Fields, highest: usize) -> Result<Option<u128>, Fault>
    requires { highest ≤ max_clauses }
    ensures { Took fields.old fields.new result (take_set highest (fields_left fields.old)) (λ s. (s, fields_left fields.new)) }
{
    read_set(fields.field()?, highest).ok_or(fields.fault())
}
