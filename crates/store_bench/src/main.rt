// Fills both stores to several sizes, and does some work at each. How many calls got which answer goes to standard
// output, and how many there were in a second to standard error, so that what the program writes is always the same.
#![tactic(auto)]

mod measure;
mod work;

use antichain::arrivals::Arrivals;
use antichain::kind::Covering;
use antichain::levels::Levels;
use antichain::limits::MAX_ENTRIES;
use measure::measure;
use set_entries::card::Card;

// Four more places than a store may use.
const PLACES: usize = MAX_ENTRIES + 4;

fn main(rt: HostRuntime) -> anyhow::Result<()> {
    let heap = rt.alloc();
    let mut here = vec![in heap; Covering(Card::new(1, 0, 0)); PLACES]?;
    let mut there = vec![in heap; Covering(Card::new(1, 0, 0)); PLACES]?;
    println!(rt; "store entries filled replaced covered others")?;
    measure(&rt, "arrivals", &mut Arrivals::new(&mut here))?;
    measure(&rt, "levels", &mut Levels::new(&mut there))?;
    Ok(())
}
