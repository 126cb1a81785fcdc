//! The modules that a kernel has, as a file or standard input lists them.
ghost use Rattle.std.specs.Prelude.{◌≡◌, Ok, IfOk, IfErr};
ghost use Rattle.table_adopt.specs.Kernel.{modules_of_text};
ghost use Rattle.table_folder.specs.Faults.{IsTold, IsUnlisted};
ghost use Rattle.table_folder.specs.Listings.{IsListing, IsTextOf};

use crate::fault::TableFault;
use crate::regular::is_other_than_file;
use crate::teller::Teller;
use program_frame::{StreamFault, is_folder, read_input, read_path};
use std::alloc::Global;
use std::io::{Read, Write};
use std::rt::Files;
use std::str;
use table_adopt::{KernelFault, KernelModule, read_modules};
use text_parts::is_same;

/// Where the modules of a kernel are listed.
#[derive(Drop)]
pub enum Listing<'a> {
    /// In the file of this path, which is yet to be read.
    File(&'a str),
    /// In this text, which was read.
    Given(Vec<u8>),
}

/// The listing that a word names: standard input if it is `-`, which is read, and else the file of this path. A path that is
/// not UTF-8 is refused, which is told.
pub fn listing_of<'a, I: Read, E: Write>(
    alloc: Global,
    file: &'a [u8],
    input: &mut I,
    teller: &mut Teller<'_, E>,
) -> Result<Listing<'a>, TableFault>
    ensures listing { IfOk result (IsListing file.now (I.remaining input.old)) }
    ensures fault { IfErr result (IsUnlisted file.now) }
{
    if is_same(file, b"-") {
        return match read_input(alloc, input) {
            Ok(text) => Ok(Listing::Given(text)),
            Err(StreamFault::Memory) => Err(TableFault::OutOfMemory),
            Err(_) => Err(TableFault::Input),
        };
    }
    match str::from_utf8(file) {
        Ok(path) => Ok(Listing::File(path)),
        Err(_) => Err(teller.say("bad file", file, "a path is UTF-8")),
    }
}

/// All bytes of a regular file. Others are refused, since to read them might take for ever.
fn read_regular<R: Files + AllocGlobal, E: Write>(
    rt: &R,
    path: &str,
    teller: &mut Teller<'_, E>,
) -> Result<Vec<u8>, TableFault>
    ensures { IfErr result IsTold }
{
    if is_other_than_file(rt, path) && !is_folder(rt, path) {
        return Err(teller.no_file(path));
    }
    match read_path(rt, path) {
        Ok(text) => Ok(text),
        Err(why) => Err(teller.unread(path, why)),
    }
}

/// The text of a listing. A file is read now. One that is not regular, or not read, is refused, which is told.
pub fn listed_text<R: Files + AllocGlobal, E: Write>(
    rt: &R,
    listing: Listing<'_>,
    teller: &mut Teller<'_, E>,
) -> Result<Vec<u8>, TableFault>
    ensures text { IfOk result (λ text. IsTextOf listing.entry text.items) }
    ensures fault { IfErr result IsTold }
{
    match listing {
        Listing::Given(text) => Ok(text),
        Listing::File(path) => read_regular(rt, path, teller),
    }
}

/// The modules of a listing's text, in the order of its lines. A text that has another line than proc(5)'s is refused, which
/// is told.
pub fn modules_of<E: Write>(
    alloc: Global,
    text: &[u8],
    teller: &mut Teller<'_, E>,
) -> Result<Vec<KernelModule>, TableFault>
    ensures modules { IfOk result (λ kernel. modules_of_text text.now ≡ Ok kernel.items) }
    ensures fault { IfErr result IsTold }
{
    match read_modules(alloc, text) {
        Ok(modules) => Ok(modules),
        Err(KernelFault::Memory) => Err(TableFault::OutOfMemory),
        Err(fault) => Err(teller.no_listing(fault)),
    }
}
