// Runs lists of calls on both stores, and prints the answers side by side.
#![tactic(auto)]

mod print;
mod scenes;

use antichain::calls::Round;
use antichain::kind::Covering;
use antichain::limits::MAX_ENTRIES;
use print::side_by_side;
use scenes::{
    all_leave, drop_ends, long_table, no_place, one_place, other_kind, other_payload,
    several_levels,
};
use set_entries::card::Card;
use std::alloc::Global;
use std::io;

// Four more places than a store may use.
const LONG: usize = MAX_ENTRIES + 4;

// Runs rounds on tables of a few places, at most four.
fn few_places<const INSIDE: bool>(
    rt: &impl Print,
    title: &str,
    places: usize,
    rounds: &mut [Round<Covering<Card, INSIDE>>],
) -> io::Result<()> {
    let mut here = [Covering(Card::new(1, 0, 0)); 4];
    let mut there = here;
    let places = places.min(4);
    side_by_side(
        rt,
        title,
        &mut here[..places],
        &mut there[..places],
        rounds,
        0,
    )
}

// Runs rounds on tables of more places than a store may use, and prints the last ones.
fn many_places(rt: &impl Print, heap: Global, title: &str) -> anyhow::Result<()> {
    let mut here = vec![in heap; Covering(Card::new(1, 0, 0)); LONG]?;
    let mut there = vec![in heap; Covering(Card::new(1, 0, 0)); LONG]?;
    let mut rounds = long_table(heap)?;
    side_by_side(rt, title, &mut here, &mut there, &mut rounds, 65535)?;
    Ok(())
}

fn main(rt: HostRuntime) -> anyhow::Result<()> {
    few_places(&rt, "several levels, 4 places", 4, &mut several_levels())?;
    few_places(&rt, "no place", 0, &mut no_place())?;
    few_places(&rt, "1 place", 1, &mut one_place())?;
    few_places(&rt, "all others leave, 3 places", 3, &mut all_leave())?;
    few_places(&rt, "another payload, 4 places", 4, &mut other_payload())?;
    few_places(&rt, "levels 0 and 16, 4 places", 4, &mut drop_ends())?;
    few_places(&rt, "the other kind, 3 places", 3, &mut other_kind())?;
    many_places(
        &rt,
        rt.alloc(),
        "65,540 places, from the 65,536th addition on",
    )
}
