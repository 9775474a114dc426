ghost use Rattle.std.specs.Prelude.{◌≡◌, ◌+◌, ◌-◌, ◌*◌, ◌^◌, ◌<◌, ◌≤◌, true, length, reverse, bit_or};
ghost use Rattle.truth.specs.Limits.{max_width};
ghost use Rattle.candidates.specs.Hits.{reaching, at_least, may_reach, better};
ghost use Rattle.candidates.specs.Walks.{some_hit, first_hit, good, Walked};

use crate::choice::{Choice, Hit};
use truth::literal::Quantifier;

// Whether hits are at least as good as others: they contain them, or at a universal level lie inside them.
fn is_at_least(quantifier: Quantifier, others: u128, hits: u128) -> bool
    ensures { result ≡ at_least quantifier others hits }
{
    match quantifier {
        Quantifier::Existential => others & hits == others,
        Quantifier::Universal => hits & others == hits,
    }
}

// Whether hits can still become at least as good as others, by what is within reach.
fn can_reach(quantifier: Quantifier, others: u128, hits: u128, reach: u128) -> bool
    ensures { result ≡ may_reach quantifier others hits reach }
{
    match quantifier {
        Quantifier::Existential => is_at_least(quantifier, others, hits | reach),
        Quantifier::Universal => is_at_least(quantifier, others, hits),
    }
}

impl Hit {
    // The value 0 of no variables.
    fn none() -> Hit
        ensures { result ≡ record { value = 0; hits = 0 } }
    {
        Hit { value: 0, hits: 0 }
    }

    // One variable more, with the digit 0.
    fn low(self, choice: &Choice) -> Hit
        requires { 2 * self.value + 1 < 2 ^ 16 }
        ensures { result ≡ record { value = 2 * self.value; hits = bit_or self.hits choice.now.low } }
    {
        Hit {
            value: 2 * self.value,
            hits: self.hits | choice.low,
        }
    }

    // One variable more, with the digit 1.
    fn high(self, choice: &Choice) -> Hit
        requires { 2 * self.value + 1 < 2 ^ 16 }
        ensures { result ≡ record { value = 2 * self.value + 1; hits = bit_or self.hits choice.now.high } }
    {
        Hit {
            value: 2 * self.value + 1,
            hits: self.hits | choice.high,
        }
    }

    // Whether it beats another: its hits are at least as good, and not the same or of a lower value.
    fn beats(self, quantifier: Quantifier, other: Hit) -> bool
        ensures { result ≡ better quantifier other.hits other.value self.hits self.value }
    {
        let Hit { value, hits } = self;
        is_at_least(quantifier, other.hits, hits) && (hits != other.hits || value < other.value)
    }
}

// A value with its hits, for others to beat.
#[derive(Drop)]
struct Rival {
    quantifier: Quantifier,
    hit: Hit,
}

impl Rival {
    // Whether some value that goes on so, through the variables left, the slice's last first, beats it. The hits and
    // the value so far come apart: as one `Hit` this walk, the inmost, takes a third more instructions than it did.
    fn is_beaten(&self, left: &[Choice], hits: u128, value: u16) -> bool
        requires reaches { reaching (reverse left.now) ≡ true }
        requires narrow { length left.now ≤ max_width }
        requires small { value < 2 ^ (max_width - length left.now) }
        ensures { result ≡ some_hit (better self.now.quantifier self.now.hit.hits self.now.hit.value) (reverse left.now) hits value }
    {
        let Some((choice, later)) = left.split_last() else {
            return Hit { value, hits }.beats(self.quantifier, self.hit);
        };
        if !can_reach(self.quantifier, self.hit.hits, hits, choice.reach) {
            return false;
        }
        self.is_beaten(later, hits | choice.low, 2 * value)
            || self.is_beaten(later, hits | choice.high, 2 * value + 1)
    }
}

// The search for the lowest value that is not below `from` and is not beaten.
#[derive(Drop)]
struct Search<'a> {
    quantifier: Quantifier,
    all: &'a [Choice],
    from: u16,
    ghost reaches: { reaching (reverse all.now) ≡ true },
    ghost narrow: { length all.now ≤ max_width },
}

impl<'a> Search<'a> {
    // The lowest such value that goes on so, through the variables left, the slice's last first.
    fn first(&self, left: &[Choice], so_far: Hit) -> Option<Hit>
        requires narrow { length left.now ≤ max_width }
        requires small { so_far.value < 2 ^ (max_width - length left.now) }
        requires walked { Walked (reverse self.now.all.now) (reverse left.now) so_far.hits so_far.value }
        ensures { result ≡ first_hit (good self.now.quantifier (reverse self.now.all.now) self.now.from) (reverse left.now) so_far.hits so_far.value }
    {
        let Some((choice, later)) = left.split_last() else {
            let rival = Rival {
                quantifier: self.quantifier,
                hit: so_far,
            };
            if so_far.value < self.from || rival.is_beaten(self.all, 0, 0) {
                return None;
            }
            return Some(so_far);
        };
        if so_far.value < self.from >> left.len() {
            return None;
        }
        let low = so_far.low(choice);
        let high = so_far.high(choice);
        if let Some(found) = self.first(later, low) {
            return Some(found);
        }
        if is_at_least(self.quantifier, high.hits, low.hits) {
            return None;
        }
        self.first(later, high)
    }
}

// The lowest value of a block, its variables from the last to the first, that is not below `from` and is not beaten.
pub(crate) fn first_from(quantifier: Quantifier, all: &[Choice], from: u16) -> Option<Hit>
    requires reaches { reaching (reverse all.now) ≡ true }
    requires narrow { length all.now ≤ max_width }
    ensures { result ≡ first_hit (good quantifier (reverse all.now) from) (reverse all.now) 0 0 }
{
    let search = Search {
        quantifier,
        all,
        from,
    };
    search.first(all, Hit::none())
}
