// Checks tables of frames, worked out by hand, in fleets of 1 to 4 machines, where ranges and pairs depend on the size.
// A line of a table is the bytes in hexadecimal, what there is to say about them, and what the line tests, with tabs between.
#![tactic(auto)]

use anyhow::Context;
use captures::outcome::Explained;
use captures::report::explain;
use std::fs;
use values::fleet_size::FleetSize;

// Whether a table's line is right; says so where it is not.
fn is_right(rt: &HostRuntime, fleet: FleetSize, number: u64, line: &str) -> anyhow::Result<bool> {
    let mut fields = line.split('\t');
    let (Some(hex), Some(expected)) = (fields.next(), fields.next()) else {
        println!(rt; "line {number} has no tab")?;
        return Ok(false);
    };
    let Explained { text, .. } = explain(rt.alloc(), fleet, number, hex.as_bytes())?;
    let right = text.as_str() == expected;
    if !right {
        println!(rt; "line {number}: expected '{expected}', got '{text}'")?;
    }
    Ok(right)
}

fn check_table(rt: &HostRuntime, machines: u8, path: &str) -> anyhow::Result<()> {
    let fleet = FleetSize::new(machines).context("no such fleet")?;
    let table = fs::read_to_string(rt, path)?;
    let mut lines: u64 = 0;
    let mut right: u64 = 0;
    for (number, line) in (1u64..).zip(table.lines()) {
        lines = number;
        right = right.saturating_add(u64::from(is_right(rt, fleet, number, line)?));
    }
    println!(rt; "{path}: {right} of {lines} right")?;
    Ok(())
}

fn main(rt: HostRuntime) -> anyhow::Result<()> {
    for (machines, path) in [(1, "n1.tsv"), (2, "n2.tsv"), (3, "n3.tsv"), (4, "n4.tsv")] {
        check_table(&rt, machines, path)?;
    }
    Ok(())
}
