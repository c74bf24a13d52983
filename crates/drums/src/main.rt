// drums: plays calls on a journal, a chain of two drums, and prints what they answer.
#![tactic(auto)]

use anyhow::{Context, anyhow, bail, ensure};
use captures::hex::{HexFault, read_hex};
use journals::chain::Chain;
use journals::drum::Drum;
use journals::journal::{Journal, ROW_BYTES};
use programs::start::Program;
use std::alloc::Global;
use std::io::{BufRead, BufReader};
use std::process::ExitCode;
use std::str::SplitWhitespace;
use std::{env, io};

// A target of a read can have so many bytes.
const MOST_TARGET: usize = 64;

const DRUMS: Program = Program {
    name: "drums",
    usage: "drums: plays calls on a journal, a chain of two empty drums, and prints what they answer

Standard input has one call to a line:
  append HEX   append, with exactly these bytes
  row HEX      append, with zeros behind these bytes up to 32
  read K       read of row K into 32 bytes
  read K S     read of row K into S bytes, at most 64
  length       how many rows there are
  free         how many rows are free
  # ...        a comment, which is printed

At the end it prints how many rows each of the two drums has.",
    input: "the calls come on standard input",
};

// The bytes that words spell, in hexadecimal.
fn bytes_of(alloc: Global, words: SplitWhitespace) -> anyhow::Result<Vec<u8>> {
    let mut bytes = Vec::new(alloc);
    for word in words {
        let part = read_hex(alloc, word.as_bytes()).map_err(|fault| match fault {
            HexFault::Column(_) => anyhow!("its bytes are not hexadecimal"),
            HexFault::Memory(_) => anyhow!("there is no memory for its bytes"),
        })?;
        bytes.extend_from_slice(part.as_slice())?;
    }
    Ok(bytes)
}

fn number_of(word: &str) -> anyhow::Result<u32> {
    word.parse::<u32>()
        .context("a number from 0 to 4294967295 is wanted")
}

fn nothing_more(mut words: SplitWhitespace) -> anyhow::Result<()> {
    ensure!(words.next().is_none(), "there are words too many");
    Ok(())
}

// The words after read: a row number and, where there is a second, the size of the target.
fn row_and_size(mut words: SplitWhitespace) -> anyhow::Result<(u32, usize)> {
    let row = words.next().context("read wants the number of a row")?;
    let k = number_of(row)?;
    let Some(size) = words.next() else {
        return Ok((k, ROW_BYTES));
    };
    let size = number_of(size)? as usize;
    nothing_more(words)?;
    Ok((k, size))
}

fn print_row(rt: &HostRuntime, k: u32, bytes: &[u8]) -> anyhow::Result<()> {
    print!(rt; "read {k}:")?;
    for byte in bytes {
        print!(rt; " {byte:02X}")?;
    }
    println!(rt; "")?;
    Ok(())
}

fn tell(rt: &HostRuntime, name: &str, number: u32, words: SplitWhitespace) -> anyhow::Result<()> {
    nothing_more(words)?;
    println!(rt; "{name}: {number}")?;
    Ok(())
}

// Plays calls on a journal, and prints what they answer.
#[derive(Drop)]
struct Player<'a, J> {
    rt: &'a HostRuntime,
    journal: &'a mut J,
}

impl<J: Journal> Player<'_, J> {
    // Appends the bytes that words spell, with zeros behind them up to so many.
    fn append(&mut self, words: SplitWhitespace, least: usize) -> anyhow::Result<()> {
        let mut bytes = bytes_of(self.rt.alloc(), words)?;
        bytes.resize(bytes.len().max(least), 0)?;
        match self.journal.append(bytes.as_slice()) {
            Ok(length) => println!(self.rt; "append: row {length}")?,
            Err(fault) => println!(self.rt; "append: {fault}")?,
        }
        Ok(())
    }

    fn read(&self, words: SplitWhitespace) -> anyhow::Result<()> {
        let (k, size) = row_and_size(words)?;
        let mut space = [0xFFu8; MOST_TARGET];
        let target = space
            .get_mut(..size)
            .context("it reads into more than 64 bytes")?;
        match self.journal.read(k, target) {
            Ok(()) => print_row(self.rt, k, target)?,
            Err(fault) => println!(self.rt; "read {k}: {fault}")?,
        }
        Ok(())
    }

    fn line(&mut self, line: io::Result<String>) -> anyhow::Result<()> {
        let line = line?;
        let mut words = line.split_whitespace();
        match words.next() {
            None => println!(self.rt; "")?,
            Some(_) if line.starts_with('#') => println!(self.rt; "{line}")?,
            Some("append") => self.append(words, 0)?,
            Some("row") => self.append(words, ROW_BYTES)?,
            Some("read") => self.read(words)?,
            Some("length") => tell(self.rt, "length", self.journal.length(), words)?,
            Some("free") => tell(self.rt, "free", self.journal.free(), words)?,
            Some(_) => bail!("append, row, read, length, free or # is wanted"),
        }
        Ok(())
    }

    // Calls are answered as they come; an error names the line.
    fn play(&mut self) -> anyhow::Result<()> {
        let lines = BufReader::new(self.rt.alloc(), self.rt.stdin())?.lines(self.rt.alloc());
        for (number, line) in (1u64..).zip(lines) {
            self.line(line)
                .map_err(|error| anyhow!("line {number}: {error}"))?;
        }
        Ok(())
    }
}

// The chain is taken apart whatever the calls were, so that both drums come back.
fn play_on_two_drums(rt: &HostRuntime) -> anyhow::Result<()> {
    let mut chain = Chain::new(Drum::new(), Drum::new());
    let journal = &mut chain;
    let played = Player { rt, journal }.play();
    let (first, second) = chain.into_parts();
    let rows = first.into_table().used;
    let more = second.into_table().used;
    played?;
    println!(rt; "first {rows} second {more}")?;
    Ok(())
}

fn main(rt: HostRuntime) -> ExitCode {
    let word = env::args(&rt).map(|mut words| words.nth(1));
    DRUMS.start(&rt, word, || play_on_two_drums(&rt))
}
