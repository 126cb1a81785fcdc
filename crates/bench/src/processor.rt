//! The time that this program has run on a processor, whatever else the machine does.

use anyhow::{Context, Result};
use std::fs;
use std::rt::Files;

/// The first number of a line.
fn first_number(line: &str) -> Option<u64> {
    line.split_whitespace().next()?.parse().ok()
}

/// The nanoseconds that the main thread has run on a processor (proc(5)).
pub fn processor_time<R: Files + AllocGlobal>(rt: &R) -> Result<u64> {
    let line = fs::read_to_string(rt, "/proc/self/schedstat")?;
    first_number(line.as_str()).context("/proc/self/schedstat has no number")
}
