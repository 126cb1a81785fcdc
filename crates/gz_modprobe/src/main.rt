//! The queries of modprobe(8), over the machine's own files.
#![tactic(auto)]

use gz_modprobe_drive::drive;
use modprobe_words::{given_options, given_words};
use std::process::ExitCode;

fn main(rt: HostRuntime) -> ExitCode {
    let (Ok(words), Ok(options)) = (given_words(&rt), given_options(&rt)) else {
        return ExitCode::from(1);
    };
    let options = options.as_deref();
    let status = drive(&rt, &words, options, &mut rt.stdout(), &mut rt.stderr());
    ExitCode::from(status)
}
