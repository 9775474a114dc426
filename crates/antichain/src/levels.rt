ghost use Rattle.std.specs.Prelude.{◌≡◌, ℕ, ◌+◌, ◌-◌, ◌^◌, ◌<◌, ◌≤◌, min, List, [], length, map, filter, nat_eq, slice_index};
ghost use Rattle.std.proofs.Common.{arith};
ghost use Rattle.antichain.specs.Limits.{max_level, max_entries};
ghost use Rattle.antichain.specs.Adding.{uncovered, placed};
ghost use Rattle.antichain.specs.Antichain.{ApartFrom};
ghost use Rattle.antichain.specs.Layouts.{grouped, Grouped};
ghost use Rattle.antichain.specs.Holding.{Holding};

use crate::entry::Entry;
use crate::limits::{MAX_LEVEL, STARTS};
use crate::store::{AddAnswer, ListedStore, Store};
use crate::table::{capacity_of, find_cover, put_in_order, retain};
use std::marker::Model;

// A store over a lent table that keeps levels together:
// the entries of level l, in canonical order, are table[starts[l - 1]..starts[l]].
#[derive(Drop)]
pub struct Levels<'a, E: Entry> {
    table: &'a mut [E],
    starts: [usize; STARTS],
}

// Callers see what the store means. What its layout keeps is so of every store, and no call asks for it.
impl<'a, E: Entry> Model for Levels<'a, E> {
    ghost Value = { Holding E };

    ghost view = { λ s. record { places = length s.table.now; entries = grouped s.starts s.table.now } };

    ghost invariant = { λ s. Grouped E.Entry s.starts s.table.now };
}

impl<'a, E: Entry> Levels<'a, E> {
    // An empty store over the table.
    pub fn new(table: &'a mut [E]) -> Levels<'a, E>
        ensures places { result.places ≡ length table.old }
        ensures held { result.entries ≡ [] }
    {
        Levels {
            table,
            starts: [0; STARTS],
        }
    }

    // The entries of level l, which stand together.
    fn of_level(&self, l: u8) -> &[E]
        requires { (1 ≤ l) × (l ≤ max_level) }
        ensures { result.now ≡ filter (λ x. nat_eq (E.Entry.level x) l) self.now.entries }
    {
        let from = self.starts[l as usize - 1];
        let to = self.starts[l as usize];
        &self.table[from..to]
    }

    // Removes the entries that e covers, all of its level, and moves those behind them up.
    fn remove_covered(&mut self, e: &E)
        ensures places { self.new.places ≡ self.old.places }
        ensures held { self.new.entries ≡ uncovered E.Entry.covers e.now self.old.entries }
        ensures fitted { length self.old.entries ≤ min self.old.places max_entries }
    {
        let l = e.level() as usize;
        let from = self.starts[l - 1];
        let to = self.starts[l];
        let kept = from + retain(&mut self.table[from..to], |x| !e.covers(x));
        if kept < to {
            self.table.copy_within(to..self.starts[MAX_LEVEL], kept);
            lower(&mut self.starts[l..], to - kept);
        }
    }

    // Puts e into its place, where it covers no entry and none covers it.
    fn insert(&mut self, e: E)
        requires apart { ApartFrom E.Entry.covers e self.old.entries }
        requires room { length self.old.entries < min self.old.places max_entries }
        ensures places { self.new.places ≡ self.old.places }
        ensures held { self.new.entries ≡ placed E.Entry.before e self.old.entries }
    {
        let l = e.level() as usize;
        let from = self.starts[l - 1];
        let to = self.starts[l];
        put_in_order(self.table, from, to, self.starts[MAX_LEVEL], e);
        raise(&mut self.starts[l..]);
    }
}

impl<'a, E: Entry> Store<E> for Levels<'a, E> {
    ghost capacity = { λ s. min s.places max_entries };

    ghost held = { λ s. s.entries };

    ghost bounded = { λ s. Prim.omega arith };

    fn empty(&mut self) {
        self.starts = [0; STARTS];
    }

    fn cover(&self, e: &E) -> Option<E> {
        find_cover(self.of_level(e.level()), e)
    }

    fn add(&mut self, e: E) -> AddAnswer {
        if self.cover(&e).is_some() {
            return AddAnswer::Covered;
        }
        self.remove_covered(&e);
        if self.count() == capacity_of(self.table.len()) {
            return AddAnswer::Full;
        }
        self.insert(e);
        AddAnswer::Added
    }

    fn drop_levels(&mut self, l: u8) {
        let gone = self.starts[(l as usize).min(MAX_LEVEL)];
        self.table.copy_within(gone..self.starts[MAX_LEVEL], 0);
        lower(&mut self.starts, gone);
    }
}

impl<'a, E: Entry> ListedStore<E> for Levels<'a, E> {
    fn count(&self) -> usize {
        self.starts[MAX_LEVEL]
    }

    fn nth(&self, k: usize) -> Option<E> {
        self.table[..self.count()].get(k).copied()
    }
}

// Takes `gone` off each start, or all of it. Apart from `raise`, which has a bound to keep and none to stop at.
fn lower(starts: &mut [usize], gone: usize)
    ensures { starts.new ≡ map (λ n. n - gone) starts.old }
{
    for start in starts {
        *start = start.saturating_sub(gone);
    }
}

// Adds one to each start.
fn raise(starts: &mut [usize])
    requires { (k : ℕ) → slice_index starts.old k ≤ max_entries }
    ensures { starts.new ≡ map (λ n. n + 1) starts.old }
{
    for start in starts {
        *start += 1;
    }
}
