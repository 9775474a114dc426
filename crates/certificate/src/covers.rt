ghost use Rattle.std.specs.Prelude.{◌≡◌, find};
ghost use Rattle.truth.specs.Verdicts.{is_true};
ghost use Rattle.certificate.specs.Accepting.{covers};

use entries::entry::Entry;
use truth::verdict::Verdict;

// Whether an entry for a verdict covers the position of a level with a set.
fn covers(entry: Entry, verdict: Verdict, level: usize, set: u128) -> bool
    ensures { result ≡ covers (is_true verdict) level set entry }
{
    if entry.level as usize != level {
        return false;
    }
    match verdict {
        Verdict::True => set & entry.set == set,
        Verdict::False => entry.set & set == entry.set,
    }
}

// The first of some entries that covers a position.
pub(crate) fn covering_entry(
    entries: &[Entry],
    verdict: Verdict,
    level: usize,
    set: u128,
) -> Option<Entry>
    ensures { result ≡ find (covers (is_true verdict) level set) entries.now }
{
    entries
        .iter()
        .find(|entry| covers(**entry, verdict, level, set))
        .copied()
}
