//! A line of an answer by its parts.
ghost use Rattle.std.specs.Prelude.{◌≡◌, ◌≤◌, [], length, option_map, IfOk, IfSome};
ghost use Rattle.answer_facts.specs.Pieces.{pieces_of};
ghost use Rattle.answer_facts.specs.Steps.{behind_path, blank_cut, command_pieces, first_part, insmod_pieces, is_builtin, is_file, is_insmod, is_install, is_remove, is_rmmod, module_pieces, other_pieces, path_of, path_with, run_pieces, step_pieces};

use crate::piece::Piece;
use std::alloc::{AllocError, Global};

/// Whether a path ends as that of a module's file.
fn is_file(path: &[u8]) -> bool
    ensures { result ≡ is_file path.now }
{
    path.ends_with(b".ko")
        || path.ends_with(b".ko.gz")
        || path.ends_with(b".ko.xz")
        || path.ends_with(b".ko.zst")
}

/// The path of a module's file with which a text begins, up to a blank.
fn path_with(text: &[u8]) -> Option<&[u8]>
    ensures path { option_map (λ path. path.now) result ≡ path_with [] text.entry.now }
    ensures bound { IfSome result (λ path. length path.now ≤ length text.entry.now) }
{
    for (at, byte) in text.iter().enumerate() {
        if *byte == b' ' && is_file(&text[..at]) {
            return Some(&text[..at]);
        }
    }
    None
}

/// What stands before the first blank.
fn first_part(text: &[u8]) -> &[u8]
    ensures part { result.now ≡ first_part text.entry.now }
    ensures bound { length result.now ≤ length text.entry.now }
{
    for (at, byte) in text.iter().enumerate() {
        if *byte == b' ' {
            return &text[..at];
        }
    }
    text
}

/// The path with which a text begins: that of a module's file, or else what stands before the first blank.
pub(crate) fn path_of(text: &[u8]) -> &[u8]
    ensures path { result.now ≡ path_of text.entry.now }
    ensures bound { length result.now ≤ length text.entry.now }
{
    match path_with(text) {
        Some(path) => path,
        None => first_part(text),
    }
}

/// What stands behind such a path and a blank.
pub(crate) fn behind_path(text: &[u8]) -> &[u8]
    ensures { result.now ≡ behind_path text.entry.now }
{
    let rest = &text[path_of(text).len()..];
    match rest.split_first() {
        Some((_, behind)) => behind,
        None => rest,
    }
}

/// A text without one blank at its end.
fn blank_cut(text: &[u8]) -> &[u8]
    ensures { result.now ≡ blank_cut text.entry.now }
{
    if text.ends_with(b" ") {
        &text[..text.len() - 1]
    } else {
        text
    }
}

fn insmod_pieces<'a>(alloc: Global, text: &'a [u8]) -> Result<Vec<Piece<'a>>, AllocError>
    ensures { IfOk result (λ pieces. pieces_of pieces.items ≡ insmod_pieces text.entry.now) }
{
    Vec::from_slice(
        alloc,
        &[
            Piece::Kind(b"insmod"),
            Piece::Field(b"path", path_of(text)),
            Piece::Field(b"options", behind_path(text)),
        ],
    )
}

fn other_pieces<'a>(
    alloc: Global,
    kind: &'a [u8],
    key: &'a [u8],
    text: &'a [u8],
) -> Result<Vec<Piece<'a>>, AllocError>
    ensures { IfOk result (λ pieces. pieces_of pieces.items ≡ other_pieces kind.entry.now key.entry.now text.entry.now) }
{
    Vec::from_slice(alloc, &[Piece::Kind(kind), Piece::Field(key, text)])
}

fn run_pieces<'a>(
    alloc: Global,
    kind: &'a [u8],
    text: &'a [u8],
) -> Result<Vec<Piece<'a>>, AllocError>
    ensures { IfOk result (λ pieces. pieces_of pieces.items ≡ run_pieces kind.entry.now text.entry.now) }
{
    other_pieces(alloc, kind, b"command", blank_cut(text))
}

/// Whether a line inserts a file.
pub(crate) fn is_insmod(line: &[u8]) -> bool
    ensures { result ≡ is_insmod line.now }
{
    line.starts_with(b"insmod ")
}

/// Whether a line removes a module.
pub(crate) fn is_rmmod(line: &[u8]) -> bool
    ensures { result ≡ is_rmmod line.now }
{
    line.starts_with(b"rmmod ")
}

/// Whether a line says that a module is built in.
pub(crate) fn is_builtin(line: &[u8]) -> bool
    ensures { result ≡ is_builtin line.now }
{
    line.starts_with(b"builtin ")
}

fn is_install(line: &[u8]) -> bool
    ensures { result ≡ is_install line.now }
{
    line.starts_with(b"install ")
}

fn is_remove(line: &[u8]) -> bool
    ensures { result ≡ is_remove line.now }
{
    line.starts_with(b"remove ")
}

/// What a line says that has a command or is of another kind, as a name that -R writes.
fn command_pieces<'a>(alloc: Global, line: &'a [u8]) -> Result<Vec<Piece<'a>>, AllocError>
    ensures { IfOk result (λ pieces. pieces_of pieces.items ≡ command_pieces line.entry.now) }
{
    if is_install(line) {
        return run_pieces(alloc, b"install", &line[8..]);
    }
    if is_remove(line) {
        return run_pieces(alloc, b"remove", &line[7..]);
    }
    other_pieces(alloc, b"line", b"text", line)
}

/// What a line says that inserts no file.
fn module_pieces<'a>(alloc: Global, line: &'a [u8]) -> Result<Vec<Piece<'a>>, AllocError>
    ensures { IfOk result (λ pieces. pieces_of pieces.items ≡ module_pieces line.entry.now) }
{
    if is_builtin(line) {
        return other_pieces(alloc, b"builtin", b"module", &line[8..]);
    }
    if is_rmmod(line) {
        return other_pieces(alloc, b"rmmod", b"module", &line[6..]);
    }
    command_pieces(alloc, line)
}

/// What a line of an answer says, as fields.
pub(crate) fn step_pieces<'a>(alloc: Global, line: &'a [u8]) -> Result<Vec<Piece<'a>>, AllocError>
    ensures { IfOk result (λ pieces. pieces_of pieces.items ≡ step_pieces line.entry.now) }
{
    if is_insmod(line) {
        return insmod_pieces(alloc, &line[7..]);
    }
    module_pieces(alloc, line)
}
