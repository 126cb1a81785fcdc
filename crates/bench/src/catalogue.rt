//! Reading a catalogue of 1,024 modules with 10 exports and 10 needs each.

use crate::figure::{print_figure, print_rate_since};
use crate::texts::text_of;
use anyhow::Result;
use dep_index::{CatError, Catalogue, read_catalogue};
use std::alloc::{AllocError, Global};
use std::rt::Clock;
use std::time::Instant;

const MODULES: usize = 1024;

const SYMBOLS: usize = 10;

const READS: usize = 150;

pub fn measure<R: Print + Clock + AllocGlobal>(rt: &R) -> Result<()> {
    let text = text_of(rt.alloc(), "version 2\n", MODULES, push_module)?;
    let megabytes = text.len().wrapping_mul(READS) / 1_000_000;
    let start = Instant::now(rt)?;
    let needs = read_often(rt.alloc(), text.as_bytes())?;
    print_rate_since(rt, "read_catalogue", megabytes, "MB/s", start)?;
    print_figure(rt, "catalogue_needs", needs as u128, "needs")
}

/// Reads the text again and again. How many needs there were in all.
fn read_often(alloc: Global, text: &[u8]) -> Result<usize, CatError> {
    let mut needs: usize = 0;
    for _ in 0..READS {
        needs = needs.wrapping_add(needs_of(&read_catalogue(alloc, text)?));
    }
    Ok(needs)
}

fn needs_of(catalogue: &Catalogue) -> usize {
    let mut needs: usize = 0;
    for slot in 0..catalogue.len() {
        needs = needs.wrapping_add(catalogue.needs(slot).len());
    }
    needs
}

/// Adds the lines of a module: it exports ten symbols, and needs one of each of ten others.
fn push_module(text: &mut String, slot: usize) -> Result<(), AllocError> {
    writeln!(text, "module module_{slot}")?;
    push_symbols(text, "exports", slot, 0)?;
    push_symbols(text, "needs", slot.wrapping_add(1), 97)
}

/// Adds a line of symbols, a further one of each module; these are so far from one another.
fn push_symbols(
    text: &mut String,
    word: &str,
    slot: usize,
    distance: usize,
) -> Result<(), AllocError> {
    text.push_str(word)?;
    for symbol in 0..SYMBOLS {
        let module = slot.wrapping_add(distance.wrapping_mul(symbol)) % MODULES;
        write!(text, " symbol_{module}_{symbol}")?;
    }
    text.push_str("\n")
}
