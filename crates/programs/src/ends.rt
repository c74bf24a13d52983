// How a program ends.
ghost use Rattle.programs.specs.Ends.{status_of};
ghost use Rattle.std.specs.Prelude.{◌≡◌};
ghost use Rattle.std.specs.Process.{exit_status};

use std::io::Eprint;
use std::process::ExitCode;

// The end of the program `name`: an error is said in one line on standard error, and the status tells that there was one.
pub fn end(rt: &impl Eprint, name: &str, outcome: anyhow::Result<()>) -> ExitCode
    ensures { exit_status result ≡ status_of outcome }
{
    match outcome {
        Ok(()) => ExitCode::SUCCESS,
        Err(error) => {
            let _ = eprintln!(rt; "{name}: {error}");
            ExitCode::FAILURE
        }
    }
}
