ghost use Rattle.std.specs.Prelude.{◌≡◌, ◌≤◌};
ghost use Rattle.std.specs.Option.{ok_or, option_map};
ghost use Rattle.text.specs.Left.{fields_left};
ghost use Rattle.formula_text.specs.Literals.{literals_of, numbers_of};
ghost use Rattle.formula_text.specs.Gathered.{wider, has_none, fitting, nothing, further, gathered};

use crate::literals::next_literal;
use arrayvec::ArrayVec;
use faults::fault::Fault;
use text::fields::Fields;
use truth::limits::{MAX_VARIABLES, MAX_WIDTH};
use truth::literal::{Clause, Literal, mask};

// The literals of a clause line: their set, as far as the masks reach, and the highest variable.
#[derive(Clone, Copy, Drop)]
pub(crate) struct Gathered {
    pub(crate) clause: Clause,
    pub(crate) highest: u32,
}

impl Gathered {
    // One literal more, of a variable from 1 up.
    fn with(self, literal: Literal) -> Gathered
        requires { 1 ≤ literal.variable }
        ensures { result ≡ further self literal }
    {
        let Clause { positive, negative } = self.clause;
        let highest = self.highest.max(literal.variable);
        if literal.variable > MAX_VARIABLES {
            return Gathered {
                clause: self.clause,
                highest,
            };
        }
        let bit = mask(literal.variable);
        let clause = if literal.negative {
            Clause {
                positive,
                negative: bit | negative,
            }
        } else {
            Clause {
                positive: bit | positive,
                negative,
            }
        };
        Gathered { clause, highest }
    }
}

// Takes all literals that are left of a clause line.
pub(crate) fn gather(fields: &mut Fields) -> Result<Gathered, Fault>
    ensures { result ≡ ok_or (option_map (gathered nothing) (literals_of (fields_left fields.old))) fields.old.fault }
{
    let mut all = Gathered {
        clause: Clause {
            positive: 0,
            negative: 0,
        },
        highest: 0,
    };
    while let Some(literal) = next_literal(fields)? {
        all = all.with(literal);
    }
    Ok(all)
}

// The numbers of a block line, or none where there are more than a block may bind.
pub(crate) type Numbers = Option<ArrayVec<u32, MAX_WIDTH>>;

// One number more. They stay where they are: a block line may have many.
fn add_number(numbers: &mut Numbers, number: u32)
    ensures { numbers.new ≡ wider numbers.old number }
{
    let Some(all) = numbers else {
        return;
    };
    if all.try_push(number).is_err() {
        *numbers = None;
    }
}

// Whether there is no number yet.
fn has_none(numbers: &Numbers) -> bool
    ensures { result ≡ has_none numbers.now }
{
    match numbers {
        Some(all) => all.is_empty(),
        None => false,
    }
}

// Takes all numbers that are left of a block line.
pub(crate) fn gather_numbers(fields: &mut Fields) -> Result<Numbers, Fault>
    ensures { result ≡ ok_or (option_map fitting (numbers_of (fields_left fields.old))) fields.old.fault }
{
    let mut numbers = Some(ArrayVec::new());
    while let Some(literal) = next_literal(fields)? {
        if literal.negative {
            return Err(fields.fault());
        }
        add_number(&mut numbers, literal.variable);
    }
    if has_none(&numbers) {
        return Err(fields.fault());
    }
    Ok(numbers)
}
