// Calls of a store, many at a time; each function counts those that got the answer due.
use antichain::kind::{Covering, LeveledSet};
use antichain::store::{AddAnswer, ListedStore, Store};
use set_entries::apart::apart;
use set_entries::card::Card;
use set_entries::kinds::Outer;

// The i-th card, with a member more that no other has.
pub(crate) fn larger(i: u16) -> Card {
    let card = apart(i);
    Card::new(card.level(), card.set() | 1 << 100, i)
}

// Adds the cards that `card` gives for these numbers.
pub(crate) fn add_each<S: ListedStore<Outer>, F: Fn(u16) -> Card>(
    store: &mut S,
    from: u16,
    to: u16,
    card: F,
) -> usize
    requires { F.IsAlwaysCallable card }
{
    let mut added = 0;
    // call by call, and no chain: each addition alters the store
    for i in from..=to {
        if store.add(Covering(card(i))) == AddAnswer::Added {
            added += 1;
        }
    }
    added
}

// Looks up sets of entries, with an extra member or without. Both kinds of look-ups run the same code.
#[inline(never)]
pub(crate) fn look_up<S: ListedStore<Outer>>(store: &S, from: u16, to: u16, extra: u128) -> usize {
    (from..=to)
        .map(apart)
        .filter(|card| {
            let wanted = Card::new(card.level(), card.set() | extra, 0);
            store.cover(&Covering(wanted)).is_some()
        })
        .count()
}
