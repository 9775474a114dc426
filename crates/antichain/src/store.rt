ghost use Rattle.std.specs.Prelude.{◌≡◌, ℕ, ◌≤◌, List, [], length, slice_get};
ghost use Rattle.antichain.specs.Limits.{max_entries};
ghost use Rattle.antichain.specs.Lookups.{Told, covered};
ghost use Rattle.antichain.specs.Adding.{answer_to, held_after, above};

use crate::entry::Entry;

// What a store answers to an addition; all but `Added` leave it as it was. None of them is a failure, so it is no Result:
// `Covered` says that nothing is left to add.
#[derive(Clone, Copy, PartialEq, Eq, Debug, Drop)]
pub enum AddAnswer {
    Added,
    Covered,
    Full,
}

// Entries of which none covers another, up to a fixed capacity.
pub trait Store<E: Entry> {
    ghost capacity: { Self → ℕ };

    // The entries, in canonical order.
    ghost held: { Self → List E };

    // Removes all entries.
    fn empty(&mut self)
        ensures held { held self.new ≡ [] }
        ensures capacity { capacity self.new ≡ capacity self.old };

    // An entry that covers e, or none where none does.
    fn cover(&self, e: &E) -> Option<E>
        ensures { Told E.Entry.covers (held self.now) e.now result };

    // Puts e in where none covers it and a place is left, and removes those that it covers.
    fn add(&mut self, e: E) -> AddAnswer
        ensures answer { result ≡ answer_to E.Entry.covers (capacity self.old) (held self.old) e }
        ensures held { held self.new ≡ held_after E.Entry.covers E.Entry.before (capacity self.old) (held self.old) e }
        ensures capacity { capacity self.new ≡ capacity self.old };

    // Removes the entries of levels 1 to l.
    fn drop_levels(&mut self, l: u8)
        ensures held { held self.new ≡ above E.Entry.level l (held self.old) }
        ensures capacity { capacity self.new ≡ capacity self.old };

    ghost bounded: { (s : Self) → capacity s ≤ max_entries };
}

// A store that also lists its entries.
pub trait ListedStore<E: Entry>: Store<E> {
    // How many entries there are.
    fn count(&self) -> usize
        ensures { result ≡ length (Self.Store.held self.now) };

    // The k-th entry in canonical order, k from 0, or none.
    fn nth(&self, k: usize) -> Option<E>
        ensures { result ≡ slice_get (Self.Store.held self.now) k };
}

// Whether some entry covers e.
pub fn is_covered<E: Entry, S: Store<E>>(store: &S, e: &E) -> bool
    ensures { result ≡ covered E.Entry.covers (S.Store.held store.now) e.now }
{
    store.cover(e).is_some()
}
