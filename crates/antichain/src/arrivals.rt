ghost use Rattle.std.specs.Prelude.{◌≡◌, ◌≤◌, min, List, [], length, filter, slice_get};
ghost use Rattle.std.proofs.Common.{arith};
ghost use Rattle.antichain.specs.Limits.{max_entries};
ghost use Rattle.antichain.specs.Antichain.{Apart};
ghost use Rattle.antichain.specs.Layouts.{sorted, arrived, Arrived};
ghost use Rattle.antichain.specs.Holding.{Holding};

use crate::entry::Entry;
use crate::store::{AddAnswer, ListedStore, Store};
use crate::table::{capacity_of, find_cover, retain};
use std::marker::Model;

// A store over a lent table: its entries are the first `len`, in the order of their arrival. The table is lent, and the
// library allocates nothing: so its length in use stands beside it.
#[derive(Drop)]
pub struct Arrivals<'a, E: Entry> {
    table: &'a mut [E],
    len: usize,
}

// Callers see what the store means. What its layout keeps is so of every store, and no call asks for it.
impl<'a, E: Entry> Model for Arrivals<'a, E> {
    ghost Value = { Holding E };

    ghost view = { λ s. record { places = length s.table.now; entries = arrived E.Entry.before s.len s.table.now } };

    ghost invariant = { λ s. Arrived E.Entry.covers E.Entry.before s.len s.table.now };
}

impl<'a, E: Entry> Arrivals<'a, E> {
    // An empty store over the table.
    pub fn new(table: &'a mut [E]) -> Arrivals<'a, E>
        ensures places { result.places ≡ length table.old }
        ensures held { result.entries ≡ [] }
    {
        Arrivals { table, len: 0 }
    }
}

impl<'a, E: Entry> Store<E> for Arrivals<'a, E> {
    ghost capacity = { λ s. min s.places max_entries };

    ghost held = { λ s. s.entries };

    ghost bounded = { λ s. Prim.omega arith };

    fn empty(&mut self) {
        self.len = 0;
    }

    fn cover(&self, e: &E) -> Option<E> {
        find_cover(&self.table[..self.len], e)
    }

    fn add(&mut self, e: E) -> AddAnswer {
        if self.cover(&e).is_some() {
            return AddAnswer::Covered;
        }
        self.len = retain(&mut self.table[..self.len], |x| !e.covers(x));
        if self.len == capacity_of(self.table.len()) {
            return AddAnswer::Full;
        }
        self.table[self.len] = e;
        self.len += 1;
        AddAnswer::Added
    }

    fn drop_levels(&mut self, l: u8) {
        self.len = retain(&mut self.table[..self.len], |x| l < x.level());
    }
}

impl<'a, E: Entry> ListedStore<E> for Arrivals<'a, E> {
    fn count(&self) -> usize {
        self.len
    }

    fn nth(&self, k: usize) -> Option<E> {
        find_rank(&self.table[..self.len], k)
    }
}

// The entry that k others come before.
fn find_rank<E: Entry>(entries: &[E], k: usize) -> Option<E>
    requires { Apart E.Entry.covers (sorted E.Entry.before entries.now) }
    ensures { result ≡ slice_get (sorted E.Entry.before entries.now) k }
{
    entries.iter().find(|x| rank(entries, x) == k).copied()
}

// How many entries come before x.
fn rank<E: Entry>(entries: &[E], x: &E) -> usize
    ensures { result ≡ length (filter (λ y. E.Entry.before y x.now) entries.now) }
{
    entries.iter().filter(|y| y.before(x)).count()
}
