//! The sections of an input before its session.
ghost use Rattle.std.specs.Prelude.{◌≡◌, ◌++◌, false, OnOk, IfOk, IfErr, None};
ghost use Rattle.modprobe.specs.Lines.{bytes_left, IfTold, IsPaid, StopsForTurns, SpendsTurns, HasTrueEnd, source_of, SameReader, line_of};
ghost use Rattle.modprobe.specs.Sections.{section_of, no_parts, add_bytes, text_in, sections};
ghost use Rattle.modprobe.specs.SetupInput.{SetupStops};
ghost use Rattle.modprobe.specs.ForProofs.{is_session, parts_of, GivesSections, StopsAs, HasLine, is_setup_read};

use crate::device::Source;
use crate::fault::{SetupCode, SetupFault};
use crate::lines::Lines;
use crate::watch::Watch;
use std::alloc::{AllocError, Global};

/// A section of the input, by the line that begins it.
#[derive(Clone, Copy, Debug, PartialEq, Eq, Drop)]
pub enum Section {
    Catalogue,
    Dep,
    Alias,
    Conf,
    Session,
}

/// The section that a line begins.
pub(crate) fn section_of(line: &[u8]) -> Option<Section>
    ensures { result ≡ section_of line.now }
{
    // Each of them begins so, and few other lines do.
    if line.first() != Some(&b'%') {
        return None;
    }
    if line == b"%catalogue".as_slice() {
        Some(Section::Catalogue)
    } else if line == b"%dep".as_slice() {
        Some(Section::Dep)
    } else if line == b"%alias".as_slice() {
        Some(Section::Alias)
    } else if line == b"%conf".as_slice() {
        Some(Section::Conf)
    } else if line == b"%session".as_slice() {
        Some(Section::Session)
    } else {
        None
    }
}

pub(crate) fn is_session(section: Section) -> bool
    ensures { result ≡ is_session section }
{
    matches!(section, Section::Session)
}

/// The texts of the sections, each joined of all sections of its kind.
#[derive(Drop)]
pub struct Texts {
    pub(crate) catalogue: Vec<u8>,
    pub(crate) dep: Vec<u8>,
    pub(crate) alias: Vec<u8>,
    pub(crate) conf: Vec<u8>,
}

impl Texts {
    pub(crate) fn new(alloc: Global) -> Texts
        ensures { parts_of result ≡ no_parts }
    {
        Texts {
            catalogue: Vec::new(alloc),
            dep: Vec::new(alloc),
            alias: Vec::new(alloc),
            conf: Vec::new(alloc),
        }
    }

    /// The text of a section; a session has none.
    pub fn text(&self, section: Section) -> &[u8]
        ensures { result.now ≡ text_in section (parts_of self.now) }
    {
        match section {
            Section::Catalogue => &self.catalogue,
            Section::Dep => &self.dep,
            Section::Alias => &self.alias,
            Section::Conf => &self.conf,
            Section::Session => &[],
        }
    }

    fn push(&mut self, section: Section, bytes: &[u8]) -> Result<(), AllocError>
        ensures { OnOk result (parts_of self.new ≡ add_bytes section bytes.now (parts_of self.old)) }
    {
        match section {
            Section::Catalogue => self.catalogue.extend_from_slice(bytes),
            Section::Dep => self.dep.extend_from_slice(bytes),
            Section::Alias => self.alias.extend_from_slice(bytes),
            Section::Conf => self.conf.extend_from_slice(bytes),
            Section::Session => Ok(()),
        }
    }

    /// Adds a line, with its end as it stands.
    pub(crate) fn push_line(
        &mut self,
        section: Section,
        line: &[u8],
        ending: &[u8],
    ) -> Result<(), AllocError>
        ensures { OnOk result (parts_of self.new ≡ add_bytes section (line.now ++ ending.now) (parts_of self.old)) }
    {
        self.push(section, line)?;
        self.push(section, ending)
    }
}

/// Reads the sections to `texts`, up to the first `%session` line or the end, and tells the watch of each line and each
/// section.
pub(crate) fn read_texts<R: Source, T: Watch>(
    lines: &mut Lines<'_, R>,
    texts: &mut Texts,
    watch: &mut T,
) -> Result<(), SetupFault>
    requires works { R.has_failed (source_of lines.old) ≡ false }
    requires empty { parts_of texts.old ≡ no_parts }
    ensures same_reader { SameReader lines.old lines.new }
    ensures sections { OnOk result (GivesSections (bytes_left R.remaining lines.old) (bytes_left R.remaining lines.new) (parts_of texts.new)) }
    ensures refused { IfErr result (λ fault. IfTold (bytes_left R.remaining lines.old) (λ text. StopsAs fault.code text)) }
    ensures stops { IfErr result (λ fault. SetupStops fault.code (bytes_left R.remaining lines.old) (R.remaining (source_of lines.new)) (line_of lines.new)) }
    ensures line { IfErr result (λ fault. HasLine fault) }
    ensures read { R.has_failed (source_of lines.new) ≡ is_setup_read result }
    ensures turns { IfErr result (λ fault. fault.code ≡ SetupCode.Turns → StopsForTurns R.remaining lines.old lines.new) }
    ensures paid { OnOk result (IsPaid R.remaining lines.old lines.new) }
    ensures counted { SpendsTurns R.read_count lines.old lines.new }
    ensures end { HasTrueEnd R.remaining lines.old → HasTrueEnd R.remaining lines.new }
{
    let mut current = None;
    while lines.next_line()? {
        if let Some(section) = section_of(lines.line()) {
            watch.line();
            watch.section(section);
            if is_session(section) {
                return Ok(());
            }
            current = Some(section);
        } else {
            let Some(section) = current else {
                return Err(SetupFault {
                    code: SetupCode::B1,
                    line: Some(1),
                });
            };
            watch.line();
            texts.push_line(section, lines.line(), lines.ending())?;
        }
    }
    Ok(())
}
