//! The lines that bring a table to the modules of a kernel.
ghost use Rattle.std.specs.Prelude.{◌≡◌};

use dep_index::{Catalogue, read_catalogue};
use proc_modules::LineError;
use seq_table::{Modules, Table};
use std::alloc::Global;
use std::test::Fail;
use table_adopt::{Adoption, KernelFault, adopt, read_modules};

const CATALOGUE: &[u8] = b"module crc
exports crc
module fat
needs crc
module loop
module nls
module zip
module usb
module mbcache
exports mbcache
module ext4
needs mbcache
";

const KERNEL: &[u8] = b"ext4 9 0 - Live 0x0
mbcache 9 1 ext4, Live 0x0
zip 9 0 - Live 0x0
nosuch 9 0 - Live 0x0
usb 9 0 - Loading 0x0
";

const LINES: [&str; 12] = [
    "end_remove zip",
    "begin_load zip",
    "end_load zip ok",
    "end_load nls fail",
    "begin_remove fat",
    "end_remove fat",
    "begin_remove crc",
    "end_remove crc",
    "begin_load mbcache",
    "end_load mbcache ok",
    "begin_load ext4",
    "end_load ext4 ok",
];

/// Begins the load of a module, and ends it if the module is to be live.
fn load(table: &mut Table, slot: usize, is_live: bool) -> Result<(), Fail>
    ensures { table.new.catalogue ≡ table.old.catalogue }
{
    if slot < table.slots() {
        table.begin_load(slot)?;
        if is_live {
            table.end_load(slot, true)?;
        }
    }
    Ok(())
}

/// Makes crc, fat and loop live, and holds loop; nls loads, and zip unloads.
fn prepare(table: &mut Table) -> Result<(), Fail>
    ensures { table.new.catalogue ≡ table.old.catalogue }
{
    load(table, 0, true)?;
    load(table, 1, true)?;
    load(table, 2, true)?;
    load(table, 3, false)?;
    load(table, 4, true)?;
    if 2 < table.slots() && 0 < table.workers() {
        table.get(0, 2)?;
    }
    if 4 < table.slots() {
        table.begin_remove(4)?;
    }
    Ok(())
}

/// What brings such a table to the kernel.
fn adopted(alloc: Global, catalogue: &Catalogue) -> Result<Adoption, Fail> {
    let mut table = Table::new(alloc, catalogue, 1)?;
    prepare(&mut table)?;
    let kernel = read_modules(alloc, KERNEL)?;
    Ok(adopt(alloc, catalogue, &table, &kernel)?)
}

/// Whether these are the lines.
fn are_lines(lines: &[Vec<u8>]) -> bool {
    for (line, wanted) in lines.iter().zip(&LINES) {
        if line.as_slice() != wanted.as_bytes() {
            return false;
        }
    }
    lines.len() == LINES.len()
}

/// Whether a table is brought to the kernel by these lines, with this report.
fn is_brought(alloc: Global, catalogue: &Catalogue) -> Result<bool, Fail> {
    let adoption = adopted(alloc, catalogue)?;
    Ok(
        adoption.report.as_slice() == b"error UNKNOWN nosuch\nerror LOST loop\n".as_slice()
            && are_lines(&adoption.lines),
    )
}

#[test]
fn a_table_is_brought_to_a_kernel(rt: HostRuntime) -> Result<(), Fail> {
    let catalogue = read_catalogue(rt.alloc(), CATALOGUE)?;
    let is_brought = is_brought(rt.alloc(), &catalogue)?;
    assert!(rt; is_brought);
    Ok(())
}

#[test]
fn a_wrong_line_has_its_number(rt: HostRuntime) {
    let read = read_modules(rt.alloc(), b"a 9 0 - Live 0x0\nb 9 0 - Gone 0x0\n");
    let wanted = KernelFault::BadLine {
        line: 2,
        error: LineError::BadState,
    };
    assert!(rt; read.err() == Some(wanted));
}
