//! An answer for sh(1).
ghost use Rattle.std.specs.Prelude.{◌≡◌, ◌++◌, [], false, option_map, IfOk, OnOk};
ghost use Rattle.std.specs.List.{list_all, list_any};
ghost use Rattle.std.specs.Str.{bytes_eq};
ghost use Rattle.text_parts.specs.Text.{texts_of};
ghost use Rattle.answer_facts.specs.Shell.{insmod_line, is_divider, is_for_shell, is_plain, is_plain_sign, is_quoted_behind, is_seen, once_line, option_byte, options_from, seen_with, shell_byte, shell_from, shell_line, shell_lines, shell_options, shell_word};

use crate::plan::parts_of;
use crate::step::{behind_path, is_builtin, is_insmod, is_rmmod, path_of};
use std::alloc::{AllocError, Global};
use text_parts::is_same;

fn is_plain_sign(byte: u8) -> bool
    ensures { result ≡ is_plain_sign byte }
{
    matches!(
        byte,
        b'/' | b'.' | b'_' | b'-' | b'=' | b',' | b':' | b'+' | b'@' | b'%'
    )
}

/// Whether a shell takes a byte as it is.
fn is_plain(byte: u8) -> bool
    ensures { result ≡ is_plain byte }
{
    byte.is_ascii_alphanumeric() || byte >= 128 || is_plain_sign(byte)
}

fn push_byte(text: &mut Vec<u8>, byte: u8) -> Result<(), AllocError>
    ensures { OnOk result (text.new.items ≡ text.old.items ++ shell_byte byte) }
{
    if !is_plain(byte) {
        text.push(b'\\')?;
    }
    text.push(byte)?;
    Ok(())
}

/// Adds a text as one word.
fn push_word(text: &mut Vec<u8>, word: &[u8]) -> Result<(), AllocError>
    ensures { OnOk result (text.new.items ≡ text.old.items ++ shell_word word.now) }
{
    for byte in word {
        push_byte(text, *byte)?;
    }
    Ok(())
}

/// Adds a byte of options, within double quotes or not.
fn push_option_byte(text: &mut Vec<u8>, is_quoted: bool, byte: u8) -> Result<(), AllocError>
    ensures { OnOk result (text.new.items ≡ text.old.items ++ option_byte is_quoted byte) }
{
    if byte == b' ' && !is_quoted {
        text.push(byte)?;
        return Ok(());
    }
    push_byte(text, byte)
}

fn is_quoted_behind(is_quoted: bool, byte: u8) -> bool
    ensures { result ≡ is_quoted_behind is_quoted byte }
{
    if byte == b'"' { !is_quoted } else { is_quoted }
}

/// Adds options, each as a word.
fn push_all_options(text: &mut Vec<u8>, options: &[u8]) -> Result<(), AllocError>
    ensures { OnOk result (text.new.items ≡ text.old.items ++ options_from false options.now) }
{
    let mut is_quoted = false;
    for byte in options {
        push_option_byte(text, is_quoted, *byte)?;
        is_quoted = is_quoted_behind(is_quoted, *byte);
    }
    Ok(())
}

fn push_options(text: &mut Vec<u8>, options: &[u8]) -> Result<(), AllocError>
    ensures { OnOk result (text.new.items ≡ text.old.items ++ shell_options options.now) }
{
    if options.is_empty() {
        return Ok(());
    }
    text.push(b' ')?;
    push_all_options(text, options)
}

fn push_insmod(text: &mut Vec<u8>, rest: &[u8]) -> Result<(), AllocError>
    ensures { OnOk result (text.new.items ≡ text.old.items ++ insmod_line rest.now) }
{
    text.extend_from_slice(b"insmod ")?;
    push_word(text, path_of(rest))?;
    push_options(text, behind_path(rest))?;
    text.extend_from_slice(b"\n")
}

/// Adds a line. What is built in takes none.
fn push_line(text: &mut Vec<u8>, line: &[u8]) -> Result<(), AllocError>
    ensures { OnOk result (text.new.items ≡ text.old.items ++ shell_line line.now) }
{
    if is_insmod(line) {
        return push_insmod(text, &line[7..]);
    }
    if !is_rmmod(line) {
        return Ok(());
    }
    text.extend_from_slice(b"rmmod ")?;
    push_word(text, &line[6..])?;
    text.extend_from_slice(b"\n")
}

fn has_path(seen: &[&[u8]], path: &[u8]) -> bool
    ensures { result ≡ list_any (bytes_eq path.now) (texts_of seen.now) }
{
    for own in seen {
        if is_same(path, *own) {
            return true;
        }
    }
    false
}

/// Whether an earlier line inserts the same file.
fn is_seen(seen: &[&[u8]], line: &[u8]) -> bool
    ensures { result ≡ is_seen (texts_of seen.now) line.now }
{
    is_insmod(line) && has_path(seen, path_of(&line[7..]))
}

/// Keeps the file that a line inserts.
fn keep_seen<'a>(seen: &mut Vec<&'a [u8]>, line: &'a [u8]) -> Result<(), AllocError>
    ensures { OnOk result (texts_of seen.new.items ≡ seen_with (texts_of seen.old.items) line.now) }
{
    if is_insmod(line) {
        seen.push(path_of(&line[7..]))?;
    }
    Ok(())
}

/// Adds a line, unless an earlier one inserts the same file.
fn push_once(text: &mut Vec<u8>, seen: &[&[u8]], line: &[u8]) -> Result<(), AllocError>
    ensures { OnOk result (text.new.items ≡ text.old.items ++ once_line (texts_of seen.now) line.now) }
{
    if is_seen(seen, line) {
        return Ok(());
    }
    push_line(text, line)
}

/// The lines, of which each file is inserted once.
fn shell_from(alloc: Global, lines: &[&[u8]]) -> Result<Vec<u8>, AllocError>
    ensures { IfOk result (λ text. text.items ≡ shell_from [] (texts_of lines.now)) }
{
    let mut seen: Vec<&[u8]> = Vec::new(alloc);
    let mut text = Vec::new(alloc);
    for line in lines {
        push_once(&mut text, &seen, *line)?;
        keep_seen(&mut seen, *line)?;
    }
    Ok(text)
}

/// Whether a shell may have a line: no command that stands in a configuration.
fn is_for_shell(line: &[u8]) -> bool
    ensures { result ≡ is_for_shell line.now }
{
    line.is_empty() || is_insmod(line) || is_rmmod(line) || is_builtin(line)
}

fn are_for_shell(lines: &[&[u8]]) -> bool
    ensures { result ≡ list_all is_for_shell (texts_of lines.now) }
{
    for line in lines {
        if !is_for_shell(*line) {
            return false;
        }
    }
    true
}

/// The lines of an answer for sh(1): each insmod and rmmod with its words quoted, and no file inserted twice. None if a line
/// is another one, as the command of an install line. It fails only if memory runs out.
pub fn shell_lines(alloc: Global, output: &[u8]) -> Result<Option<Vec<u8>>, AllocError>
    ensures { IfOk result (λ lines. option_map (λ text. text.items) lines ≡ shell_lines output.now) }
{
    let parts = parts_of(alloc, output)?;
    if !are_for_shell(&parts) {
        return Ok(None);
    }
    Ok(Some(shell_from(alloc, &parts)?))
}
