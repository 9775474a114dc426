ghost use Rattle.std.specs.Prelude.{◌≡◌};
ghost use Rattle.formula_text.specs.Kinds.{kind_of};

use truth::literal::Quantifier;

// What a line's first letter says of it: a comment, the line `p`, a block line, or another.
#[derive(Clone, Copy, Drop)]
pub(crate) enum Kind {
    Comment,
    Problem,
    Prefix(Quantifier),
    Other,
}

pub(crate) fn kind_of(line: &[u8]) -> Kind
    ensures { result ≡ kind_of line.now }
{
    let Some((first, _)) = line.split_first() else {
        return Kind::Other;
    };
    match *first as char {
        'c' => Kind::Comment,
        'p' => Kind::Problem,
        'a' => Kind::Prefix(Quantifier::Universal),
        'e' => Kind::Prefix(Quantifier::Existential),
        _ => Kind::Other,
    }
}
