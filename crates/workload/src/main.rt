//! The program of schedules and scripts: an input in, the report out, or what the workers came to.
#![tactic(auto)]

use program_frame::words;
use std::process::ExitCode;
use workload_drive::drive;

fn main(rt: HostRuntime) -> ExitCode {
    let words = match words(&rt) {
        Ok(words) => words,
        Err(status) => return ExitCode::from(status.number()),
    };
    let status = drive(
        &rt,
        &words,
        &mut rt.stdin(),
        &mut rt.stdout(),
        &mut rt.stderr(),
    );
    ExitCode::from(status)
}
