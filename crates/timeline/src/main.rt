//! The program of pictures: a report in, its picture out.
#![tactic(auto)]

use program_frame::words;
use std::process::ExitCode;
use timeline_drive::drive;

fn main(rt: HostRuntime) -> ExitCode {
    let words = match words(&rt) {
        Ok(words) => words,
        Err(status) => return ExitCode::from(status.number()),
    };
    let status = drive(
        &rt,
        &words,
        &mut rt.stdin(),
        &mut rt.stdout(),
        &mut rt.stderr(),
    );
    ExitCode::from(status)
}
