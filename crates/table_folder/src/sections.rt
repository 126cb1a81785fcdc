//! The sections of a new table, of the files that words name.
ghost use Rattle.std.specs.Prelude.{IfErr};
ghost use Rattle.table_folder.specs.Faults.{IsTold};

use crate::fault::TableFault;
use crate::teller::Teller;
use modprobe::Section;
use program_frame::is_folder;
use session_files::{NamedFile, add_section, paths_in};
use std::fs::File;
use std::io::Write;
use std::rt::Files;
use std::str;

/// Adds the section that a file is.
fn add_file<R: Files, E: Write>(
    rt: &R,
    text: &mut Vec<u8>,
    file: NamedFile<'_>,
    teller: &mut Teller<'_, E>,
) -> Result<(), TableFault>
    ensures { IfErr result IsTold }
{
    let added = match File::open(rt, file.path) {
        Ok(mut opened) => add_section(text, file.section, &mut opened),
        Err(error) => Err(error),
    };
    match added {
        Ok(()) => Ok(()),
        Err(error) => Err(teller.unread_for(file.path, &error)),
    }
}

/// Adds the sections of the files of a folder that count.
fn add_folder<R: Files + AllocGlobal, E: Write>(
    rt: &R,
    text: &mut Vec<u8>,
    folder: &str,
    teller: &mut Teller<'_, E>,
) -> Result<(), TableFault>
    ensures { IfErr result IsTold }
{
    let paths = match paths_in(rt.alloc(), rt, folder) {
        Ok(paths) => paths,
        Err(why) => return Err(teller.unread(folder, why)),
    };
    for path in &paths {
        if !is_folder(rt, path) {
            let file = NamedFile {
                section: Section::Conf,
                path,
            };
            add_file(rt, text, file, teller)?;
        }
    }
    Ok(())
}

/// Adds what a word names.
fn add_word<R: Files + AllocGlobal, E: Write>(
    rt: &R,
    text: &mut Vec<u8>,
    word: &[u8],
    teller: &mut Teller<'_, E>,
) -> Result<(), TableFault>
    ensures { IfErr result IsTold }
{
    let advice = "write catalogue=PATH, dep=PATH, alias=PATH or conf=PATH";
    let Some(file) = str::from_utf8(word).ok().and_then(NamedFile::of) else {
        return Err(teller.say("bad word", word, advice));
    };
    if file.section == Section::Conf && is_folder(rt, file.path) {
        return add_folder(rt, text, file.path, teller);
    }
    add_file(rt, text, file, teller)
}

/// The sections that words name, one after another.
pub(crate) fn named_sections<R: Files + AllocGlobal, E: Write>(
    rt: &R,
    words: &[&[u8]],
    teller: &mut Teller<'_, E>,
) -> Result<Vec<u8>, TableFault>
    ensures { IfErr result IsTold }
{
    let mut text = Vec::new(rt.alloc());
    for word in words {
        add_word(rt, &mut text, *word, teller)?;
    }
    Ok(text)
}
