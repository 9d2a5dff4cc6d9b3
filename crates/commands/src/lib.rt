// The commands of the program `label`: what each prints is tested by programs that run it.
#![tactic(auto)]

mod records_command;
mod replies;
mod sample_command;
mod source;

use anyhow::anyhow;
use records_command::print_records;
use sample_command::print_sample;
use std::env;

const USAGE: &str = "usage: label sample, or label records JOB (a file, or - for standard input)";

// Runs the command that the program's words name.
fn run(rt: &HostRuntime) -> anyhow::Result<()> {
    let mut words = env::args(rt)?;
    let _program = words.next();
    let Some(command) = words.next() else {
        return Err(anyhow!(USAGE));
    };
    match (command.as_str(), words.next()) {
        ("sample", _) => Ok(print_sample(rt)?),
        ("records", Some(path)) => print_records(rt, path.as_str()),
        _ => Err(anyhow!(USAGE)),
    }
}

// Runs the command, and tells what went wrong on standard error.
pub fn run_label(rt: &HostRuntime) -> anyhow::Result<()> {
    let done = run(rt);
    if let Err(error) = &done {
        eprintln!(rt; "label: {error}")?;
    }
    done
}
