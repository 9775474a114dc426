ghost use Rattle.std.specs.Prelude.{◌≡◌};
ghost use Rattle.truth.specs.Sides.{owes};
ghost use Rattle.truth.specs.Verdicts.{is_true, verdict_word};

use crate::literal::Quantifier;
use std::fmt;

// Whether a formula, or a position, is true or false.
#[derive(Clone, Copy, PartialEq, Eq, Debug, Drop)]
pub enum Verdict {
    True,
    False,
}

impl Verdict {
    // The word that texts have for it.
    pub fn word(self) -> &'static str
        ensures { result.now ≡ verdict_word self }
    {
        match self {
            Verdict::True => "true",
            Verdict::False => "false",
        }
    }

    // Whether its holder chooses the values of blocks with this quantifier.
    pub fn owes(self, quantifier: Quantifier) -> bool
        ensures { result ≡ owes (is_true self) quantifier }
    {
        match (self, quantifier) {
            (Verdict::True, Quantifier::Existential) => true,
            (Verdict::False, Quantifier::Universal) => true,
            _ => false,
        }
    }
}

// The verdict on what is so, or is not.
impl From<bool> for Verdict {
    ghost from_gives = { λ so r. is_true r ≡ so };

    fn from(so: bool) -> Verdict {
        if so { Verdict::True } else { Verdict::False }
    }
}

impl fmt::Display for Verdict {
    fn fmt<W: fmt::Write>(&self, f: &mut fmt::Formatter<W>) -> fmt::Result {
        f.write_str(self.word())
    }
}
