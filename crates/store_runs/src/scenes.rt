// Lists of calls, each for an edge of what stores promise.
use antichain::calls::{Call, Round};
use antichain::kind::Covering;
use set_entries::apart::apart;
use set_entries::card::Card;
use set_entries::kinds::{Inner, Outer};
use std::alloc::Global;

fn add<const INSIDE: bool>(level: u8, set: u128, payload: u16) -> Round<Covering<Card, INSIDE>> {
    Round::new(Call::Add(Covering(Card::new(level, set, payload))))
}

fn cover(level: u8, set: u128) -> Round<Outer> {
    Round::new(Call::Cover(Covering(Card::new(level, set, 0))))
}

fn nth<E>(k: usize) -> Round<E> {
    Round::new(Call::Nth(k))
}

pub(crate) fn several_levels() -> [Round<Outer>; 22] {
    [
        nth(0),
        add(3, 0b0110, 0),
        add(1, 0b1000, 0),
        add(3, 0b0001, 0),
        add(2, 0b0010, 0),
        cover(3, 0b0010),
        cover(3, 0b1000),
        cover(2, 0b0110),
        add(3, 0b0010, 0),
        add(4, 0b0001, 0),
        add(3, 0b1110, 0),
        Round::new(Call::DropLevels(1)),
        add(16, 0b0001, 0),
        add(4, 0b0001, 0),
        Round::new(Call::Count),
        nth(0),
        nth(1),
        nth(2),
        nth(3),
        nth(4),
        Round::new(Call::Empty),
        Round::new(Call::Count),
    ]
}

pub(crate) fn no_place() -> [Round<Outer>; 7] {
    [
        cover(1, 0),
        add(1, 0, 0),
        cover(1, 0),
        Round::new(Call::DropLevels(16)),
        Round::new(Call::Empty),
        Round::new(Call::Count),
        nth(0),
    ]
}

pub(crate) fn one_place() -> [Round<Outer>; 8] {
    [
        add(2, 0b01, 0),
        add(2, 0b10, 0),
        add(3, 0b01, 0),
        add(2, 0b11, 0),
        add(2, 0b01, 0),
        Round::new(Call::Count),
        nth(0),
        nth(1),
    ]
}

pub(crate) fn all_leave() -> [Round<Outer>; 8] {
    [
        add(5, 0b001, 0),
        add(5, 0b100, 0),
        add(5, 0b010, 0),
        add(5, 0b1000, 0),
        add(5, 0b111, 0),
        Round::new(Call::Count),
        nth(0),
        nth(1),
    ]
}

pub(crate) fn other_payload() -> [Round<Outer>; 6] {
    [
        add(2, 0b101, 1),
        add(2, 0b101, 2),
        cover(2, 0b101),
        Round::new(Call::Count),
        nth(0),
        nth(1),
    ]
}

pub(crate) fn drop_ends() -> [Round<Outer>; 11] {
    [
        add(1, 0b1, 0),
        add(16, 0b1, 0),
        add(15, 0b1, 0),
        Round::new(Call::DropLevels(0)),
        Round::new(Call::Count),
        Round::new(Call::DropLevels(15)),
        Round::new(Call::Count),
        nth(0),
        Round::new(Call::DropLevels(16)),
        Round::new(Call::Count),
        nth(0),
    ]
}

pub(crate) fn other_kind() -> [Round<Inner>; 8] {
    [
        add(7, 0b0111, 0),
        add(7, 0b1110, 0),
        add(7, 0b1111, 0),
        add(6, 0b1111, 0),
        add(7, 0b0110, 0),
        Round::new(Call::Count),
        nth(0),
        nth(1),
    ]
}

// More additions than a store may hold, of entries that do not cover each other, and one that covers a whole level.
pub(crate) fn long_table(heap: Global) -> anyhow::Result<Vec<Round<Outer>>> {
    let mut rounds = Vec::new(heap);
    for i in 0..=u16::MAX {
        rounds.push(Round::new(Call::Add(Covering(apart(i)))))?;
    }
    rounds.push(add(16, 1 << 100, 0))?;
    rounds.push(Round::new(Call::Count))?;
    rounds.push(nth(0))?;
    rounds.push(add(16, 0xffff_ffff, 0))?;
    rounds.push(Round::new(Call::Count))?;
    Ok(rounds)
}
