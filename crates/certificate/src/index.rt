ghost use Rattle.std.specs.Prelude.{◌≡◌, ◌+◌, ◌^◌, ◌<◌, ◌≤◌, length, find};
ghost use Rattle.truth.specs.Limits.{max_blocks};
ghost use Rattle.truth.specs.Verdicts.{is_true};
ghost use Rattle.certificate.specs.Accepting.{covers};
ghost use Rattle.certificate.specs.Spans.{Spanned, reaching};

use crate::covers::covering_entry;
use entries::entry::Entry;
use truth::limits::MAX_BLOCKS;
use truth::verdict::Verdict;

// A place for each level that a formula can have, and for level 0.
const PLACES: usize = MAX_BLOCKS + 1;

// Places from one on and before another. An end of 0 takes in none: so no `Option` is needed to say that there is none.
#[derive(Clone, Copy, Drop)]
struct Span {
    start: usize,
    end: usize,
}

impl Span {
    // The span up to place i, behind all that it had. Where it had none, it begins there.
    fn reaching(self, i: usize) -> Span
        requires { i < 2 ^ 63 }
        ensures { result ≡ reaching i self }
    {
        Span {
            start: if self.end == 0 { i } else { self.start },
            end: i + 1,
        }
    }
}

// Entries, with the span in which those of each level stand: a look-up passes over the others.
#[derive(Drop)]
pub(crate) struct Index<'a> {
    entries: &'a [Entry],
    spans: [Span; PLACES],
    ghost places: { length spans ≡ max_blocks + 1 },
    ghost spanned: { Spanned entries.now (length entries.now) spans },
}

impl<'a> Index<'a> {
    pub(crate) fn of(entries: &'a [Entry]) -> Index<'a>
        ensures { result.entries.now ≡ entries.now }
    {
        let mut spans = [Span { start: 0, end: 0 }; PLACES];
        for (i, entry) in entries.iter().enumerate() {
            let level = entry.level as usize;
            // There is no place for a level that no formula has.
            if level < PLACES {
                spans[level] = spans[level].reaching(i);
            }
        }
        Index { entries, spans }
    }

    // The first entry that covers a position of a level that a formula can have.
    pub(crate) fn covering(&self, verdict: Verdict, level: usize, set: u128) -> Option<Entry>
        requires { level ≤ max_blocks }
        ensures { result ≡ find (covers (is_true verdict) level set) self.now.entries.now }
    {
        let Span { start, end } = self.spans[level];
        covering_entry(&self.entries[start..end], verdict, level, set)
    }
}
