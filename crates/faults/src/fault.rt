ghost use Rattle.std.specs.Prelude.{◌≡◌};
ghost use Rattle.faults.specs.Refusals.{layer_of, number_of};

use crate::cause::Cause;
use crate::layer::Layer;
use std::fmt;

// A refusal: its cause, and the line of the text at fault, from 1, or 0 where it stands in no line: a number and no
// `Option`, since 0 is what the format has programs print.
#[derive(Clone, Copy, PartialEq, Eq, Debug, Drop)]
pub struct Fault {
    pub cause: Cause,
    pub line: usize,
}

impl Fault {
    pub fn new(cause: Cause, line: usize) -> Fault
        ensures { result ≡ record { cause = cause; line = line } }
    {
        Fault { cause, line }
    }

    pub fn layer(self) -> Layer
        ensures { result ≡ layer_of self.cause }
    {
        self.cause.layer()
    }

    pub fn number(self) -> u8
        ensures { result ≡ number_of self.cause }
    {
        self.cause.number()
    }
}

// A cause that stands in no line.
impl From<Cause> for Fault {
    ghost from_gives = { λ cause r. r ≡ record { cause = cause; line = 0 } };

    fn from(cause: Cause) -> Fault {
        Fault::new(cause, 0)
    }
}

// As `layer number line`.
impl fmt::Display for Fault {
    fn fmt<W: fmt::Write>(&self, f: &mut fmt::Formatter<W>) -> fmt::Result {
        let layer = self.layer();
        let number = self.number();
        let line = self.line;
        write!(f, "{layer} {number} {line}")
    }
}
