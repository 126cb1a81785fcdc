//! The load of the machine: what else runs on it disturbs the figures.

use std::rt::Files;
use std::thread::{Threads, available_parallelism};
use std::{fs, io};

/// Prints the load averages over 1, 5 and 15 minutes and the number of processors, as one line that begins with `#`. The
/// averages stand before two other words in the line that the system writes of them (proc(5)).
pub fn print_load<R: Print + Files + AllocGlobal + Threads>(rt: &R) -> io::Result<()> {
    let processors = available_parallelism(rt)?;
    let line = fs::read_to_string(rt, "/proc/loadavg").unwrap_or(String::new(rt.alloc()));
    let averages = line.as_str().rsplitn(3, ' ').nth(2);
    let averages = averages.unwrap_or("unknown (no /proc/loadavg)");
    println!(rt; "# load {averages}, {processors} processors")
}
