//! Appends the longest body to a gated log and to a journal, each on a device in memory, and one that is a byte longer, and
//! prints what became of the file. It is a program and no test, since tests are also run step by step, where 33 million
//! bytes take too long.
#![tactic(auto)]

mod of_gated_log;
mod of_journal;
mod outcome;
mod sizes;

use crate::outcome::Outcome;
use anyhow::Error;

fn print_outcome<R: AllocGlobal + Print>(rt: &R, outcome: Outcome) -> Result<(), Error> {
    println!(rt;
        "{} bytes: refused {}, bodies {}, size {}",
        outcome.bytes, outcome.refused, outcome.count, outcome.size
    )?;
    Ok(())
}

fn main(rt: HostRuntime) -> Result<(), Error> {
    println!(rt; "a gated log")?;
    let (longer, longest) = of_gated_log::limits(rt.alloc())?;
    print_outcome(&rt, longer)?;
    print_outcome(&rt, longest)?;
    println!(rt; "a journal")?;
    let limits = of_journal::limits(rt.alloc())?;
    print_outcome(&rt, limits.longer)?;
    print_outcome(&rt, limits.longest)?;
    println!(rt;
        "opened again, bodies of {:?} bytes, and the last bytes of the first one are {:?}",
        limits.sizes, limits.end
    )?;
    Ok(())
}
