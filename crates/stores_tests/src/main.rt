//! Prints what stores answer over a device in memory: a line of standard input is steps with `; ` between, which begin with a
//! device without files and no store, and a line of standard output has the answer of each. They stand in the files stdin and
//! stdout, and `tests/stores.py` computes the same answers by plain models of the device and of the stores.
#![tactic(auto)]

mod catalogs;
mod cursors;
mod device;
mod journals;
mod kept;
mod ledgers;
mod logs;
mod naming;
mod reading;
mod slots;
mod taken;
mod tried;

use anyhow::Error;
use std::alloc::Global;
use tried::Tried;

/// What is answered to a line. An empty line and a title stay as they are.
fn said(alloc: Global, line: &str) -> Result<String, Error> {
    if line.is_empty() || line.starts_with("#") {
        return Ok(String::from_str(alloc, line)?);
    }
    let mut said = String::new(alloc);
    let mut tried = Tried::new(alloc);
    let done = tried.steps(line, &mut said);
    drop(tried);
    done?;
    Ok(said)
}

fn main(rt: HostRuntime) -> Result<(), Error> {
    for line in rt.lines(rt.alloc()) {
        let line = line?;
        let answer = said(rt.alloc(), line.as_str())?;
        println!(rt; "{answer}")?;
    }
    Ok(())
}
