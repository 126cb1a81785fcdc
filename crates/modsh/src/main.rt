//! The session program: standard input in, replies out.
#![tactic(auto)]

use modsh_drive::{FromWrite, drive};
use program_frame::words;
use std::process::ExitCode;

fn main(rt: HostRuntime) -> ExitCode {
    let words = match words(&rt) {
        Ok(words) => words,
        Err(status) => return ExitCode::from(status.number()),
    };
    let mut output = FromWrite::new(rt.stdout());
    let status = drive(&rt, &words, rt.stdin(), &mut output, &mut rt.stderr());
    ExitCode::from(status)
}
