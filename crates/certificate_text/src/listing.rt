ghost use Rattle.std.specs.Prelude.{◌≡◌, ◌<◌, ◌≤◌, ⊤, List, length, MatchOption};
ghost use Rattle.std.specs.List.{slice_get as element_at};
ghost use Rattle.entries.specs.declared.entry.Entry.{Entry};
ghost use Rattle.certificate_text.specs.Listing.{max_listed};

use entries::entry::Entry;

// How many entries can be listed: as many as a store can hold.
pub const MAX_LISTED: usize = 65_536;

// Entries that can be told one by one, wherever they are held.
pub trait Listing {
    // The entries, in order.
    ghost listed: { Self → List Entry };

    // A state in which they can be told: whoever makes the value gives it. Any state, where nothing else is said.
    ghost ready: { Self → Type 0 } = { λ _. ⊤ };

    // How many entries there are.
    fn count(&self) -> usize
        requires { ready self.now }
        ensures value { result ≡ length (listed self.now) }
        ensures bound { result ≤ max_listed };

    // The k-th entry, k from 0, or none.
    fn nth(&self, k: usize) -> Option<Entry>
        requires { ready self.now }
        ensures { result ≡ element_at (listed self.now) k };
}

// The entries of a slice, no more than can be listed.
#[derive(Clone, Copy, Drop)]
pub struct EntrySlice<'a> {
    entries: &'a [Entry],
    ghost few: { length entries.now ≤ max_listed },
}

impl<'a> EntrySlice<'a> {
    // The entries of a slice, or none where there are more than can be listed.
    pub fn new(entries: &'a [Entry]) -> Option<EntrySlice<'a>>
        ensures { MatchOption result (max_listed < length entries.now) (λ s. (s.entries.now ≡ entries.now) × (length s.entries.now ≤ max_listed)) }
    {
        if entries.len() > MAX_LISTED {
            return None;
        }
        Some(EntrySlice { entries })
    }
}

impl<'a> Listing for EntrySlice<'a> {
    ghost listed = { λ s. s.entries.now };

    fn count(&self) -> usize {
        self.entries.len()
    }

    fn nth(&self, k: usize) -> Option<Entry> {
        self.entries.get(k).copied()
    }
}
