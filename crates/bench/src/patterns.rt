//! Shell patterns of hardware aliases: one pair at a time, and a look-up over the 26,000 of a modules.alias text.

use crate::figure::{print_rate_since, print_turns_since};
use crate::texts::text_of;
use alias_match::{Aliases, Pattern, read_aliases};
use anyhow::{Result, ensure};
use std::alloc::{AllocError, Global};
use std::rt::Clock;
use std::time::Instant;

const USB: &[u8] = b"usb:v0A12p0001d*dc*dsc*dp*ic*isc*ip*in*";

const PCI: &[u8] = b"pci:v00008086d*sv*sd*bc03sc*i*";

/// Two texts that one pattern matches or does not. The turns take them alternately: a match of one text alone is the same
/// in each turn, and the compiler makes it once.
type Texts = [&'static [u8]; 2];

const USB_HITS: Texts = [
    b"usb:v0A12p0001d8891dcE0dsc01dp01icE0isc01ip01in00",
    b"usb:v0A12p0001d8891dcE0dsc01dp01icE0isc01ip01in01",
];

const USB_MISSES: Texts = [
    b"usb:v0A12p0003d8891dcE0dsc01dp01icE0isc01ip01in00",
    b"usb:v0A12p0003d8891dcE0dsc01dp01icE0isc01ip01in01",
];

const PCI_HITS: Texts = [
    b"pci:v00008086d00001916sv00001028sd000006DEbc03sc00i00",
    b"pci:v00008086d00001916sv00001028sd000006DEbc03sc00i01",
];

const PCI_MISSES: Texts = [
    b"pci:v00008086d00009D2Fsv00001028sd000006DEbc0Csc03i30",
    b"pci:v00008086d00009D2Fsv00001028sd000006DEbc0Csc03i31",
];

/// The names of figures, each with a pattern, two texts and how often they match.
static PAIRS: [(&str, &[u8], Texts, usize); 4] = [
    ("match_usb_hit", USB, USB_HITS, ROUNDS),
    ("match_pci_hit", PCI, PCI_HITS, ROUNDS),
    ("match_usb_miss", USB, USB_MISSES, 0),
    ("match_pci_miss", PCI, PCI_MISSES, 0),
];

const ROUNDS: usize = 300_000;

const LOOKUPS: usize = 100;

/// How many devices the text has, half of them on each of two buses.
const DEVICES: usize = 26_000;

/// A device that one of the patterns matches.
pub const DEVICE: &[u8] = b"pci:v00001388d00001388sv00001028sd000006DEbc03sc00i00";

/// Adds the alias of a device; its vendor and its product have its number.
fn push_alias(text: &mut String, device: usize) -> Result<(), AllocError> {
    if device % 2 == 0 {
        writeln!(
            text,
            "alias pci:v0000{device:04X}d0000{device:04X}sv*sd*bc*sc*i* driver-{device}"
        )
    } else {
        writeln!(
            text,
            "alias usb:v{device:04X}p{device:04X}d*dc*dsc*dp*ic*isc*ip*in* driver-{device}"
        )
    }
}

fn alias_text(alloc: Global) -> Result<String, AllocError> {
    text_of(alloc, "", DEVICES, push_alias)
}

/// The aliases of this text.
pub fn aliases(alloc: Global) -> Result<Aliases> {
    Ok(read_aliases(alloc, alias_text(alloc)?.as_bytes())?)
}

pub fn measure<R: Print + Clock + AllocGlobal>(rt: &R) -> Result<()> {
    for (name, pattern, texts, hits) in &PAIRS {
        measure_pair(rt, name, pattern, texts, *hits)?;
    }
    measure_aliases(rt)
}

fn measure_pair<R: Print + Clock + AllocGlobal>(
    rt: &R,
    name: &str,
    pattern: &[u8],
    texts: &Texts,
    hits: usize,
) -> Result<()> {
    let pattern = Pattern::read(rt.alloc(), pattern)?;
    measure_pattern(rt, name, &pattern, texts, hits)
}

fn measure_aliases<R: Print + Clock + AllocGlobal>(rt: &R) -> Result<()> {
    let text = alias_text(rt.alloc())?;
    let start = Instant::now(rt)?;
    let aliases = read_aliases(rt.alloc(), text.as_bytes())?;
    print_rate_since(rt, "read_aliases", text.len(), "bytes/s", start)?;
    measure_look_ups(rt, &aliases)
}

fn measure_pattern<R: Print + Clock>(
    rt: &R,
    name: &str,
    pattern: &Pattern,
    texts: &Texts,
    hits: usize,
) -> Result<()> {
    let start = Instant::now(rt)?;
    let found = matches(pattern, texts);
    print_turns_since(rt, name, ROUNDS, start)?;
    ensure!(found == hits, "another answer");
    Ok(())
}

/// How often the pattern matches one of the texts, which are taken in turn.
fn matches(pattern: &Pattern, texts: &Texts) -> usize {
    let mut hits: usize = 0;
    for turn in 0..ROUNDS {
        hits = hits.wrapping_add(usize::from(pattern.matches(texts[turn % 2])));
    }
    hits
}

fn measure_look_ups<R: Print + Clock>(rt: &R, aliases: &Aliases) -> Result<()> {
    let start = Instant::now(rt)?;
    let mut found: usize = 0;
    for _ in 0..LOOKUPS {
        found = found.wrapping_add(hits(aliases));
    }
    print_turns_since(rt, "lookup_26000_patterns", LOOKUPS, start)?;
    ensure!(found == LOOKUPS, "another number of patterns");
    Ok(())
}

/// How many patterns match the device.
fn hits(aliases: &Aliases) -> usize {
    let mut hits: usize = 0;
    for i in 0..aliases.len() {
        if aliases.pattern(i).matches(DEVICE) {
            hits = hits.wrapping_add(1);
        }
    }
    hits
}
