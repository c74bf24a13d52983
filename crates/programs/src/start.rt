// Starting a program.
ghost use Rattle.programs.specs.Ends.{status_of};
ghost use Rattle.programs.specs.Words.{IsHelp};
ghost use Rattle.std.specs.Prelude.{◌≡◌, ⊤, Ok, Some, None, IfErr, IsErr, MatchOption, string_bytes};
ghost use Rattle.std.specs.Process.{exit_status};

use crate::ends::end;
use crate::words::Request;
use anyhow::bail;
use std::io::{self, Eprint};
use std::process::ExitCode;

// What a program says of itself.
#[derive(Clone, Copy)]
pub struct Program<'a> {
    pub name: &'a str,
    // what --help prints
    pub usage: &'a str,
    // where its input comes from, which is told for a word that it does not take
    pub input: &'a str,
}

impl Program<'_> {
    // Does what the word asks for.
    fn answer<R: Print, F: FnOnce() -> anyhow::Result<()>>(
        self,
        rt: &R,
        word: Option<&str>,
        work: F,
    ) -> anyhow::Result<()>
        requires { F.IsAlwaysCallable work }
        ensures work { word.entry ≡ None → F.post work result }
        ensures unknown { MatchOption word.entry ⊤ (λ w. (IsHelp w.now → ⊥) → IsErr result) }
    {
        match Request::of(word) {
            Request::Work => work(),
            Request::Help => {
                println!(rt; "{}", self.usage)?;
                Ok(())
            }
            Request::Unknown => bail!("no words but --help are taken; {}", self.input),
        }
    }

    // Starts the program by the first word behind its name, where the words could be read: with none it does its work, and for --help or -h
    // it prints its usage. The status tells how it ended.
    pub fn start<R: Print + Eprint, F: FnOnce() -> anyhow::Result<()>>(
        self,
        rt: &R,
        word: io::Result<Option<String>>,
        work: F,
    ) -> ExitCode
        requires { F.IsAlwaysCallable work }
        ensures unread { IfErr word (λ _. exit_status result ≡ 1) }
        ensures work { word ≡ Ok None → (outcome : _) × F.post work outcome × (exit_status result ≡ status_of outcome) }
        ensures unknown { (w : _) → word ≡ Ok (Some w) → (IsHelp (string_bytes w) → ⊥) → exit_status result ≡ 1 }
    {
        let outcome = match word {
            Ok(word) => self.answer(rt, word.as_deref(), work),
            Err(error) => Err(error.into()),
        };
        end(rt, self.name, outcome)
    }
}
