ghost use Rattle.std.specs.Prelude.{◌≡◌, ℕ, ◌+◌, ◌-◌, ◌*◌, ◌/◌, ◌^◌, ◌<◌, true};
ghost use Rattle.antichain.specs.Inclusion.{inside};
ghost use Rattle.set_entries.specs.Apart.{apart_set};

use crate::card::Card;

// The i-th of 65,536 cards, in canonical order, of which none lies inside another:
// 4,096 to a level, each with the bits of i and, below them, those that i lacks.
#[tactic(auto, using(crate::proofs::Halves::same_from_inside))]
pub fn apart(i: u16) -> Card
    ensures level { result.level ≡ i / 4096 + 1 }
    ensures set { result.set ≡ i * 65536 + (65535 - i) }
    ensures payload { result.payload ≡ i }
    ensures apart { (j : ℕ) → j < 2 ^ 16 → (inside result.set (apart_set j) ≡ true → i ≡ j) × (inside (apart_set j) result.set ≡ true → i ≡ j) }
{
    let bits = i as u128;
    Card::new((i / 4096) as u8 + 1, bits * 65536 + (65535 - bits), i)
}
