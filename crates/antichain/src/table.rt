// What the stores do with the entries of a lent table.
ghost use Rattle.std.specs.Prelude.{◌≡◌, ◌+◌, ◌<◌, ◌≤◌, min, Bool, true, false, length, take, drop, filter};
ghost use Rattle.std.specs.Fn.{FnReturnsAt};
ghost use Rattle.std.specs.List.{AllByRecursion};
ghost use Rattle.antichain.specs.Limits.{max_entries};
ghost use Rattle.antichain.specs.Lookups.{Told};
ghost use Rattle.antichain.specs.Adding.{placed};
ghost use Rattle.antichain.specs.Layouts.{Ordered};

use crate::entry::Entry;
use crate::limits::MAX_ENTRIES;

// How many entries a store over a table of this length may hold.
pub(crate) fn capacity_of(len: usize) -> usize
    ensures { result ≡ min len max_entries }
{
    len.min(MAX_ENTRIES)
}

// An entry that covers e, if there is one.
pub(crate) fn find_cover<E: Entry>(entries: &[E], e: &E) -> Option<E>
    ensures { Told E.Entry.covers entries.now e.now result }
{
    // a copy, so that the search need not read e through its reference each time
    let e = *e;
    entries.iter().find(|x| x.covers(&e)).copied()
}

// Moves the items that pass the test to the front, in order, and says how many they are. Nothing is written up to the
// first that fails it: most additions to a store remove no entry. Slices have no `retain` of their
// own, and no iterator can hold a slice that is read and written at two places.
pub(crate) fn retain<T: Copy, F: Fn(&T) -> bool>(items: &mut [T], test: F) -> usize
    requires { F.IsAlwaysCallable test }
    ensures kept { (p : T → Bool) → ((x : T) (b : Bool) → FnReturnsAt F.Fn test x b → b ≡ p x) → take result items.new ≡ filter p items.old }
    ensures fewer { result ≤ length items.old }
{
    let mut k = 0;
    for i in 0..items.len() {
        if test(&items[i]) {
            if k < i {
                items[k] = items[i];
            }
            k += 1;
        }
    }
    k
}

// Puts e into its place among the first `len`, which are in order.
// It comes before none of those below `from`, and before all from `to` on.
pub(crate) fn put_in_order<E: Entry>(table: &mut [E], from: usize, to: usize, len: usize, e: E)
    requires within { (from ≤ to) × (to ≤ len) × (len < length table.old) }
    requires ordered { Ordered E.Entry.before (take len table.old) }
    requires first { AllByRecursion (λ x. E.Entry.before e x ≡ false) (take from table.old) }
    requires last { AllByRecursion (λ x. E.Entry.before e x ≡ true) (drop to (take len table.old)) }
    ensures { take (len + 1) table.new ≡ placed E.Entry.before e (take len table.old) }
{
    let at = from + table[from..to].partition_point(|x| !e.before(x));
    table.copy_within(at..len, at + 1);
    table[at] = e;
}
