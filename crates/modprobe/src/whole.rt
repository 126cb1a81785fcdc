//! The setup of a text that is there as a whole.
ghost use Rattle.std.specs.Prelude.{◌≡◌, [], false, None, Ok, IfErr, IfOk, MatchOption};
ghost use Rattle.text_parts.specs.Text.{cut_lines, ended};
ghost use Rattle.modprobe.specs.Lines.{HasNoFeed};
ghost use Rattle.modprobe.specs.Sections.{no_parts, sections};
ghost use Rattle.modprobe.specs.SetupInput.{setup_of, Refuses};
ghost use Rattle.modprobe.specs.ForProofs.{HasLine, StopsAs, is_setup_read, is_turns_code, parts_of};
ghost use Rattle.modprobe.specs.Whole.{IsCutAtFeed, IsFirstLine, line_in};

use crate::aliases::AliasForm;
use crate::fault::{SetupCode, SetupFault};
use crate::lines::LONGEST_LINE;
use crate::section::{Texts, is_session, section_of};
use crate::setup::{Setup, setup_for};
use memchr::memchr;
use std::alloc::Global;

/// The first line of a text.
#[derive(Clone, Copy)]
struct FirstLine<'t> {
    /// Without its end.
    line: &'t [u8],
    ending: &'static [u8],
    /// What follows it.
    rest: &'t [u8],
}

/// The parts before and after the first line feed.
fn split_at_feed(text: &[u8]) -> Option<(&[u8], &[u8])>
    ensures { MatchOption result (HasNoFeed text.entry.now) (λ parts. IsCutAtFeed text.entry.now parts.0.now parts.1.now) }
{
    let end = memchr(b'\n', text)?;
    Some((&text[..end], &text[end + 1..]))
}

/// The line that the part before a line feed is.
fn ended<'t>(part: &'t [u8], rest: &'t [u8]) -> FirstLine<'t>
    ensures line { line_in result ≡ ended part.entry.now }
    ensures rest { result.rest.now ≡ rest.entry.now }
{
    if part.last() == Some(&b'\r') {
        FirstLine {
            line: &part[..part.len() - 1],
            ending: b"\r\n",
            rest,
        }
    } else {
        FirstLine {
            line: part,
            ending: b"\n",
            rest,
        }
    }
}

/// The first line of a text. The empty text has none.
fn first_line(text: &[u8]) -> Option<FirstLine<'_>>
    ensures { MatchOption result (text.entry.now ≡ []) (λ first. IsFirstLine text.entry.now first) }
{
    if text.is_empty() {
        return None;
    }
    match split_at_feed(text) {
        Some((part, rest)) => Some(ended(part, rest)),
        None => Some(FirstLine {
            line: text,
            ending: b"",
            rest: b"",
        }),
    }
}

/// Adds the sections of a text to `texts`, up to the first `%session` line or the end. Returns what follows them.
fn read_sections<'t>(text: &'t [u8], texts: &mut Texts) -> Result<&'t [u8], SetupFault>
    requires empty { parts_of texts.old ≡ no_parts }
    ensures sections { IfOk result (λ rest. sections None no_parts (cut_lines text.entry.now) ≡ Ok (parts_of texts.new, cut_lines rest.now)) }
    ensures refused { IfErr result (λ fault. StopsAs fault.code text.entry.now) }
    ensures line { IfErr result (λ fault. HasLine fault) }
    ensures read { is_setup_read result ≡ false }
    ensures turns { IfErr result (λ fault. is_turns_code fault.code ≡ false) }
{
    let (mut rest, mut current) = (text, None);
    while let Some(first) = first_line(rest) {
        if first.line.len() > LONGEST_LINE {
            return Err(SetupFault {
                code: SetupCode::LongLine,
                line: None,
            });
        }
        rest = first.rest;
        if let Some(section) = section_of(first.line) {
            if is_session(section) {
                return Ok(rest);
            }
            current = Some(section);
        } else {
            let Some(section) = current else {
                return Err(SetupFault {
                    code: SetupCode::B1,
                    line: Some(1),
                });
            };
            texts.push_line(section, first.line, first.ending)?;
        }
    }
    Ok(rest)
}

/// The setup that the sections of a text say, with its aliases in a form, and what follows the sections: the lines of the
/// session. It is what `read_setup` reads of a source that gives this text, with the same faults, without Read and Turns.
pub fn read_whole_setup<'t>(
    alloc: Global,
    text: &'t [u8],
    form: AliasForm,
) -> Result<(Setup, &'t [u8]), SetupFault>
    ensures setup { IfOk result (λ read. setup_of text.entry.now ≡ Ok (read.0, cut_lines read.1.now)) }
    ensures refused { IfErr result (λ fault. Refuses fault (setup_of text.entry.now)) }
    ensures read { is_setup_read result ≡ false }
    ensures turns { IfErr result (λ fault. is_turns_code fault.code ≡ false) }
{
    let mut texts = Texts::new(alloc);
    let rest = match read_sections(text, &mut texts) {
        Ok(rest) => rest,
        Err(fault) => return Err(fault),
    };
    match setup_for(alloc, &texts, form) {
        Ok(setup) => Ok((setup, rest)),
        Err(fault) => Err(fault),
    }
}
