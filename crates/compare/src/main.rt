//! The message comparer's program.
#![tactic(auto)]

mod ask;
mod command;
mod hedge;
mod lines;
mod named;
mod runs;
mod tell;

use command::obey;
use std::process::ExitCode;

fn main(rt: HostRuntime) -> ExitCode {
    match obey(&rt) {
        Ok(true) => ExitCode::SUCCESS,
        Ok(false) => ExitCode::FAILURE,
        Err(error) => {
            let _ = eprintln!(rt; "{error}");
            ExitCode::FAILURE
        }
    }
}
