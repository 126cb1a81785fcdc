//! A configuration text, read whole, and looked up by name.

use crate::figure::{print_rate_since, print_turns_since};
use crate::texts::{push_numbered, text_of};
use anyhow::{Result, ensure};
use modprobe_conf::{Conf, read_conf};
use std::alloc::AllocError;
use std::rt::Clock;
use std::time::Instant;

const MODULES: usize = 20_000;

const LOOKUPS: usize = 1_000_000;

/// The names that are looked up in turn, each with three words of options.
static NAMES: [&[u8]; 4] = [b"driver_7", b"driver_777", b"driver_7777", b"driver_17777"];

/// The lines of a module behind the hardware in its alias: its options, which go over two lines, its softdep line, and a
/// blacklist line of another.
const LINES: &str = "d*sv*sd*bc*sc*i* driver-@
options driver-@ debug=1 \\\n level=3 name=card@
softdep driver-@ pre: first-@ post: last-@
blacklist other-@
";

fn push_module(text: &mut String, module: usize) -> Result<(), AllocError> {
    write!(text, "alias pci:v0000{module:04X}")?;
    push_numbered(text, LINES, module)
}

pub fn measure<R: Print + Clock + AllocGlobal>(rt: &R) -> Result<()> {
    let text = text_of(rt.alloc(), "", MODULES, push_module)?;
    let start = Instant::now(rt)?;
    let conf = read_conf(rt.alloc(), text.as_bytes())?;
    print_rate_since(rt, "read_conf", text.len(), "bytes/s", start)?;
    measure_look_ups(rt, &conf)
}

fn measure_look_ups<R: Print + Clock>(rt: &R, conf: &Conf) -> Result<()> {
    let start = Instant::now(rt)?;
    let words = words_found(conf);
    print_turns_since(rt, "options_of_a_name", LOOKUPS, start)?;
    ensure!(words == 3 * LOOKUPS, "an option is missing");
    Ok(())
}

/// Looks the names up in turn. How many words they have in all.
fn words_found(conf: &Conf) -> usize {
    let mut words: usize = 0;
    for turn in 0..LOOKUPS {
        words = words.wrapping_add(conf.options(NAMES[turn % NAMES.len()]).len());
    }
    words
}
