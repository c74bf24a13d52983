// inspect: says in words what the frames of a radio capture say, or why they are none.
#![tactic(auto)]

use anyhow::bail;
use captures::first_line::fleet_size;
use captures::outcome::{Explained, Tally};
use captures::report::explain;
use programs::start::Program;
use std::env;
use std::io::{BufRead, BufReader};
use std::process::ExitCode;
use values::fleet_size::FleetSize;

const INSPECT: Program = Program {
    name: "inspect",
    usage: "inspect: explains the frames of a radio capture, read from standard input

  first line     the number of machines in the fleet, 1 to 9
  further lines  the bytes of one frame each, in hexadecimal; blanks may stand between bytes

It prints one line for each frame, and at the end how many were good, refused and unreadable.",
    input: "the capture comes on standard input",
};

// Puts the next line into `line`, without its newline, and answers whether there was one. Each line has the room of those before it:
// a vector of its own for each would cost a capture with long lines up to 1.8 times the memory.
fn next_line<B: BufRead>(input: &mut B, line: &mut Vec<u8>) -> anyhow::Result<bool> {
    line.clear();
    let length = input.read_until(b'\n', line)?;
    if line.last() == Some(&b'\n') {
        line.pop();
    }
    Ok(length != 0)
}

// Says each line behind the first as it comes, so that a capture can be followed while it is made.
fn explain_lines<B: BufRead>(
    rt: &HostRuntime,
    fleet: FleetSize,
    input: &mut B,
) -> anyhow::Result<()> {
    let mut tally = Tally::new();
    let mut line = Vec::new(rt.alloc());
    for number in 2u64.. {
        if !next_line(input, &mut line)? {
            break;
        }
        let Explained { outcome, text } = explain(rt.alloc(), fleet, number, line.as_slice())?;
        tally.count(outcome);
        println!(rt; "{text}")?;
    }
    println!(rt; "{tally}")?;
    Ok(())
}

// How many machines the first line says that the fleet has. Its room is given back before the other lines are read.
fn first_line<B: BufRead>(rt: &HostRuntime, input: &mut B) -> anyhow::Result<Option<FleetSize>> {
    let mut line = Vec::new(rt.alloc());
    next_line(input, &mut line)?;
    Ok(fleet_size(line.as_slice()))
}

fn inspect(rt: &HostRuntime) -> anyhow::Result<()> {
    let mut input = BufReader::new(rt.alloc(), rt.stdin())?;
    let Some(fleet) = first_line(rt, &mut input)? else {
        println!(rt; "refused 1")?;
        bail!("line 1: the number of machines in the fleet is wanted, one digit from 1 to 9");
    };
    explain_lines(rt, fleet, &mut input)
}

fn main(rt: HostRuntime) -> ExitCode {
    let word = env::args(&rt).map(|mut words| words.nth(1));
    INSPECT.start(&rt, word, || inspect(&rt))
}
