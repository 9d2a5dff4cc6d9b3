// The program `label`, run by the gate on a job with a record of every kind. A program of its own, and the same: the gate
// gives each program one list of words.
#![tactic(auto)]

use commands::run_label;
use std::process::ExitCode;

fn main(rt: HostRuntime) -> ExitCode {
    // the command has told what went wrong
    match run_label(&rt) {
        Ok(()) => ExitCode::SUCCESS,
        Err(_) => ExitCode::FAILURE,
    }
}
