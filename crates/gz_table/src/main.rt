//! A table of modules that processes share: words and lines in, replies out.
#![tactic(auto)]

use gz_table_drive::{Tenures, drive};
use modprobe_words::{given_variable, given_words};
use std::process::ExitCode;

fn main(rt: HostRuntime) -> ExitCode {
    let (Ok(words), Ok(table)) = (given_words(&rt), given_variable(&rt, "GZ_TABLE")) else {
        return ExitCode::from(3);
    };
    let table = table.as_deref().filter(|text| !text.is_empty());
    let mut log = Tenures::new(rt.alloc());
    let status = drive(
        &rt,
        &words,
        table,
        &mut log,
        &mut rt.stdin(),
        &mut rt.stdout(),
        &mut rt.stderr(),
    );
    ExitCode::from(status)
}
