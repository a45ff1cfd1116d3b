//! Runs a script on a grid: reads it from standard input, and writes one line for each reply, then the grid.
#![tactic(auto)]

ghost use Rattle.std.specs.Prelude.{◌≡◌, MatchResult};
ghost use Rattle.std.specs.Process.{exit_status};
ghost use Rattle.gridscript.specs.Ending.{ending_status};

mod ending;
mod input;
#[cfg(test)]
mod tests;

use ending::Ending;
use grid_play::play;
use input::{arguments, mode, read_all};
use std::process::ExitCode;
use std::rt::Env;

// The arguments are tested first, then the whole input is read, and only then the script is run.
fn run<R: Env + Input + Print + AllocGlobal>(rt: &R) -> Result<(), Ending> {
    let deferred = mode(&arguments(rt)?).ok_or(Ending::Usage)?;
    let script = read_all(rt.alloc(), &mut rt.reader())?;
    let output = play(rt.alloc(), &script, deferred)?;
    rt.print(&output).map_err(|_| Ending::Transfer)
}

// The status of a program that ended so.
fn exit_code(ended: &Result<(), Ending>) -> ExitCode
    ensures { MatchResult ended.now
        (λ _. exit_status result ≡ 0) (λ ending. exit_status result ≡ ending_status ending) }
{
    match ended {
        Ok(()) => ExitCode::from(0),
        Err(ending) => ExitCode::from(ending.status()),
    }
}

fn main(rt: HostRuntime) -> ExitCode {
    let ended = run(&rt);
    if let Err(ending) = &ended {
        let _ = eprintln!(rt; "{ending}");
    }
    exit_code(&ended)
}
