ghost use Rattle.std.specs.Prelude.{◌≡◌};
ghost use Rattle.std.proofs.Common.{refl};
ghost use Rattle.antichain.specs.Entries.{covers_by};
ghost use Rattle.antichain.specs.Inclusion.{inside};
ghost use Rattle.set_entries.specs.declared.card.Card.{Card};

use crate::card::Card;
use antichain::entry::Entry;
use antichain::kind::Covering;

// Covers the sets that lie inside its own.
pub type Outer = Covering<Card, true>;

// Covers the sets that its own lies inside.
pub type Inner = Covering<Card, false>;

// A kind of cards that cover the sets of their level that lie inside their own.
pub trait CoversInside: Entry {
    ghost card: { Self → Card };

    ghost inwards: { (x y : Self) → Self.Entry.covers x y ≡ covers_by (λ s t. inside t s) (card x).level (card x).set (card y).level (card y).set };
}

// A kind of cards that cover the sets of their level that their own lies inside.
pub trait CoversAround: Entry {
    ghost card: { Self → Card };

    ghost outwards: { (x y : Self) → Self.Entry.covers x y ≡ covers_by inside (card x).level (card x).set (card y).level (card y).set };
}

impl CoversInside for Outer {
    ghost card = { λ x. x.0 };

    ghost inwards = { λ x y. refl };
}

impl CoversAround for Inner {
    ghost card = { λ x. x.0 };

    ghost outwards = { λ x y. refl };
}
