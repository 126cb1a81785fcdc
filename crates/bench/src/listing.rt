//! The listings of tables of 256 to 1,024 loaded modules, each of which needs the four before it.
ghost use Rattle.std.specs.Prelude.{◌≡◌, IfOk};
ghost use Rattle.dep_index.specs.Catalogue.{modules_of};

use crate::figure::{print_figure, print_turns_since};
use crate::texts::{numbered_catalogue, push_numbered};
use anyhow::Result;
use dep_index::Catalogue;
use proc_modules::{lsmod_text, proc_text};
use seq_table::{Modules, Table};
use std::alloc::{AllocError, Global};
use std::rt::Clock;
use std::time::Instant;

const WORKERS: usize = 64;

const LISTINGS: usize = 200;

/// How many modules are listed.
static SIZES: [usize; 3] = [256, 512, 1024];

pub fn measure<R: Print + Clock + AllocGlobal>(rt: &R) -> Result<()> {
    for modules in &SIZES {
        measure_size(rt, *modules)?;
    }
    Ok(())
}

fn measure_size<R: Print + Clock + AllocGlobal>(rt: &R, modules: usize) -> Result<()> {
    let catalogue = numbered_catalogue(rt.alloc(), modules, push_module)?;
    let table = loaded(rt.alloc(), &catalogue)?;
    measure_table(rt, &catalogue, &table)
}

/// Prints how long each of the listings takes, and how many bytes both have.
fn measure_table<R: Print + Clock + AllocGlobal>(
    rt: &R,
    catalogue: &Catalogue,
    table: &Table,
) -> Result<()>
    requires { table.now.catalogue ≡ modules_of catalogue.now }
{
    let modules = catalogue.len();
    let start = Instant::now(rt)?;
    let in_lines = bytes_of(rt.alloc(), catalogue, table, false)?;
    print_turns_since(rt, format_args!("proc_text_{modules}"), LISTINGS, start)?;
    let start = Instant::now(rt)?;
    let in_columns = bytes_of(rt.alloc(), catalogue, table, true)?;
    print_turns_since(rt, format_args!("lsmod_text_{modules}"), LISTINGS, start)?;
    let name = format_args!("proc_text_{modules}_and_columns");
    print_figure(rt, name, in_lines.wrapping_add(in_columns) as u128, "bytes")
}

/// Lists again and again, in lines or in columns. How many bytes there were in all.
fn bytes_of(
    alloc: Global,
    catalogue: &Catalogue,
    table: &Table,
    in_columns: bool,
) -> Result<usize, AllocError>
    requires { table.now.catalogue ≡ modules_of catalogue.now }
{
    let mut bytes: usize = 0;
    for _ in 0..LISTINGS {
        let text = if in_columns {
            lsmod_text(alloc, catalogue, table)?
        } else {
            proc_text(alloc, catalogue, table)?
        };
        bytes = bytes.wrapping_add(text.len());
    }
    Ok(bytes)
}

/// Adds the lines of a module, which needs the four before it.
fn push_module(text: &mut String, slot: usize) -> Result<(), AllocError> {
    push_numbered(
        text,
        "module driver-@\nsize @8192\nexports symbol_@\n",
        slot,
    )?;
    for need in slot.saturating_sub(4)..slot {
        writeln!(text, "needs symbol_{need}")?;
    }
    Ok(())
}

/// A table in which every module is live.
fn loaded(alloc: Global, catalogue: &Catalogue) -> Result<Table, AllocError>
    ensures { IfOk result (λ t. t.catalogue ≡ modules_of catalogue.now) }
{
    let mut table = Table::new(alloc, catalogue, WORKERS)?;
    for slot in 0..catalogue.len() {
        if slot < table.slots() {
            let _ = table.begin_load(slot);
            let _ = table.end_load(slot, true);
        }
    }
    Ok(table)
}
