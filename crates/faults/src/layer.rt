ghost use Rattle.std.specs.Prelude.{◌≡◌};
ghost use Rattle.faults.specs.Refusals.{layer_name};

use std::fmt;

// The part of the library that refuses.
#[derive(Clone, Copy, PartialEq, Eq, Debug, Drop)]
pub enum Layer {
    Formula,
    Certificate,
    Check,
    Session,
    Play,
    Program,
}

impl Layer {
    // The word that programs print for a layer.
    pub fn name(self) -> &'static str
        ensures { result.now ≡ layer_name self }
    {
        match self {
            Layer::Formula => "formula",
            Layer::Certificate => "certificate",
            Layer::Check => "check",
            Layer::Session => "session",
            Layer::Play => "play",
            Layer::Program => "program",
        }
    }
}

impl fmt::Display for Layer {
    fn fmt<W: fmt::Write>(&self, f: &mut fmt::Formatter<W>) -> fmt::Result {
        f.write_str(self.name())
    }
}
