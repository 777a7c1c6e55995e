//! Runs the tables of worked rows in `data/`: each row is a text with what a layer of the loader makes of it. It prints each row that
//! differs, and how many rows each table has.
#![tactic(auto)]

mod atoms;
mod cells;
mod modules;
mod names;
mod outer;
mod shapes;
mod table;
mod tokens;

use anyhow::Result;
use table::{TABLES, check};

fn main(rt: HostRuntime) -> Result<()> {
    for (name, subject) in TABLES {
        check(&rt, name, subject)?;
    }
    Ok(())
}
