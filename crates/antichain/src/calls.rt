// Calls of a store as values, and the law over runs.
ghost use Rattle.std.specs.Prelude.{◌≡◌, ℕ, List, [], None};
ghost use Rattle.antichain.specs.Antichain.{Antichain};
ghost use Rattle.antichain.specs.Runs.{answered, leaves, ran, played, Alike};

use crate::entry::Entry;
use crate::store::{AddAnswer, ListedStore, Store, is_covered};

// A call of a listed store.
#[derive(Clone, Copy, Debug)]
pub enum Call<E> {
    Cover(E),
    Add(E),
    DropLevels(u8),
    Empty,
    Count,
    Nth(usize),
}

// The answer to a call. Which of the covering entries a store tells is left to it, so of `cover` only whether one is told.
#[derive(Clone, Copy, Debug)]
pub enum Answer<E> {
    Covers(bool),
    Adds(AddAnswer),
    Counts(usize),
    Lists(Option<E>),
    Done,
}

// A call made on two stores, with the answers once they are given.
#[derive(Clone, Copy)]
pub struct Round<E> {
    pub call: Call<E>,
    pub first: Option<Answer<E>>,
    pub second: Option<Answer<E>>,
}

impl<E> Round<E> {
    // A call that is not made yet.
    pub fn new(call: Call<E>) -> Round<E>
        ensures call { result.call ≡ call }
        ensures unanswered { (result.first ≡ None) × (result.second ≡ None) }
    {
        Round {
            call,
            first: None,
            second: None,
        }
    }
}

// Makes one call.
pub fn apply<E: Entry, S: ListedStore<E>>(store: &mut S, call: &Call<E>) -> Answer<E>
    ensures answer { result ≡ answered E.Entry (S.Store.capacity store.old) (S.Store.held store.old) call.now }
    ensures held { S.Store.held store.new ≡ leaves E.Entry (S.Store.capacity store.old) (S.Store.held store.old) call.now }
    ensures capacity { S.Store.capacity store.new ≡ S.Store.capacity store.old }
{
    match call {
        Call::Cover(e) => Answer::Covers(is_covered(store, e)),
        Call::Add(e) => Answer::Adds(store.add(*e)),
        Call::DropLevels(l) => {
            store.drop_levels(*l);
            Answer::Done
        }
        Call::Empty => {
            store.empty();
            Answer::Done
        }
        Call::Count => Answer::Counts(store.count()),
        Call::Nth(k) => Answer::Lists(store.nth(*k)),
    }
}

// Makes the calls of the rounds on both stores, in turn, and writes their answers down.
fn play<E: Entry, P: ListedStore<E>, Q: ListedStore<E>>(
    p: &mut P,
    q: &mut Q,
    rounds: &mut [Round<E>],
)
    ensures rounds { rounds.new ≡ played E.Entry (P.Store.capacity p.old) (Q.Store.capacity q.old) (P.Store.held p.old) (Q.Store.held q.old) rounds.old }
    ensures first { P.Store.held p.new ≡ ran E.Entry (P.Store.capacity p.old) (P.Store.held p.old) rounds.old }
    ensures second { Q.Store.held q.new ≡ ran E.Entry (Q.Store.capacity q.old) (Q.Store.held q.old) rounds.old }
    ensures capacities { (P.Store.capacity p.new ≡ P.Store.capacity p.old) × (Q.Store.capacity q.new ≡ Q.Store.capacity q.old) }
{
    for round in rounds {
        round.first = Some(apply(p, &round.call));
        round.second = Some(apply(q, &round.call));
    }
}

// Empties two stores, makes the calls of the rounds on both, in turn, and writes their answers down.
// The law over runs: stores of equal capacities, whatever they are, answer alike and hold the same then;
// and what a store holds after any calls is an antichain, in canonical order and within its capacity.
pub fn run_both<E: Entry, P: ListedStore<E>, Q: ListedStore<E>>(
    p: &mut P,
    q: &mut Q,
    rounds: &mut [Round<E>],
)
    ensures rounds { rounds.new ≡ played E.Entry (P.Store.capacity p.old) (Q.Store.capacity q.old) [] [] rounds.old }
    ensures first { P.Store.held p.new ≡ ran E.Entry (P.Store.capacity p.old) [] rounds.old }
    ensures second { Q.Store.held q.new ≡ ran E.Entry (Q.Store.capacity q.old) [] rounds.old }
    ensures capacities { (P.Store.capacity p.new ≡ P.Store.capacity p.old) × (Q.Store.capacity q.new ≡ Q.Store.capacity q.old) }
    ensures alike { P.Store.capacity p.old ≡ Q.Store.capacity q.old → Alike rounds.new × (P.Store.held p.new ≡ Q.Store.held q.new) }
    ensures antichains { Antichain E.Entry.covers E.Entry.before (P.Store.capacity p.old) (P.Store.held p.new) × Antichain E.Entry.covers E.Entry.before (Q.Store.capacity q.old) (Q.Store.held q.new) }
{
    p.empty();
    q.empty();
    play(p, q, rounds);
}
