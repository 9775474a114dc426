ghost use Rattle.std.specs.Prelude.{◌≡◌, [], ◌∷◌, length, reverse, is_ok, if◌then◌else◌, nat_lt};
ghost use Rattle.std.specs.Option.{option_map};
ghost use Rattle.truth.specs.Limits.{max_width};
ghost use Rattle.truth.specs.Candidates.{first_from};
ghost use Rattle.candidates.specs.Hits.{hit, bests, reach_of, ahead};
ghost use Rattle.candidates.specs.Held.{choices_in};

use crate::choice::{Choice, Hit};
use crate::choices::Choices;
use crate::walk::first_from;
use arrayvec::{ArrayVec, CapacityError};
use truth::literal::Quantifier;

// All that some variables, from the last to the first, can satisfy at most.
fn reach_of(choices: &[Choice]) -> u128
    ensures { result ≡ reach_of (reverse choices.now) }
{
    choices.last().map_or(0, |first| first.reach)
}

impl Choices {
    // No variables yet.
    pub fn new() -> Choices
        ensures { choices_in result ≡ [] }
    {
        Choices {
            held: ArrayVec::new(),
        }
    }

    // One variable ahead of the others, by the clauses that it satisfies if false and if true. Refused where there is
    // no place for it: there are twelve.
    pub fn put_first(&mut self, low: u128, high: u128) -> Result<(), CapacityError>
        ensures room { is_ok result ≡ nat_lt (length (choices_in self.old)) max_width }
        ensures held { choices_in self.new ≡ (if is_ok result then ahead low high (choices_in self.old) ∷ choices_in self.old else choices_in self.old) }
    {
        let reach = low | high | reach_of(self.held.as_slice());
        self.held
            .try_push(Choice { low, high, reach })
            .map_err(|e| e.simplify())
    }

    // The lowest value not below `from` that no other value beats, with the clauses that it satisfies.
    pub fn next(&self, quantifier: Quantifier, from: u16) -> Option<Hit>
        ensures { result ≡ option_map (λ v. record { value = v; hits = hit (choices_in self.now) v }) (first_from from (bests quantifier (choices_in self.now))) }
    {
        first_from(quantifier, self.held.as_slice(), from)
    }
}
