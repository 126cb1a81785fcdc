//! The parts of what a line says.
ghost use Rattle.std.specs.Prelude.{◌≡◌, ◌++◌, decimal, OnOk};
ghost use Rattle.std.specs.List.{flat_map};
ghost use Rattle.answer_facts.specs.Quoted.{quoted};
ghost use Rattle.answer_facts.specs.Pieces.{comma_name, comma_quoted, flag_text, json_list, json_of, json_piece, json_tag, json_through, key_text, names_of, piece_of, pieces_of, text_of, text_piece, text_through, truth_text};

use crate::quoted::push_quoted;
use itoa::Buffer;
use std::alloc::AllocError;

/// A part of what a line says. A field has its key first; the text has what is no field, too.
#[derive(Clone, Copy)]
pub(crate) enum Piece<'a> {
    /// Of which kind the line is: the first field of JSON alone.
    Kind(&'a [u8]),
    /// Words of the text alone.
    Words(&'a [u8]),
    /// A field whose value stands in the text too.
    Field(&'a [u8], &'a [u8]),
    /// A field of JSON alone, left out if it is empty.
    Tag(&'a [u8], &'a [u8]),
    /// A field of JSON alone: whether something is so.
    Flag(&'a [u8], bool),
    /// A number that stands in the text too.
    Number(&'a [u8], u64),
    /// How a module is needed: by itself if there are no names, else through these modules.
    Through(&'a [&'a [u8]]),
}

fn push_number(text: &mut Vec<u8>, number: u64) -> Result<(), AllocError>
    ensures { OnOk result (text.new.items ≡ text.old.items ++ decimal number) }
{
    let mut buffer = Buffer::new();
    text.extend_from_slice(buffer.format(number).as_bytes())
}

/// Adds names to a text, each after a comma.
fn push_names(text: &mut Vec<u8>, names: &[&[u8]]) -> Result<(), AllocError>
    ensures { OnOk result (text.new.items ≡ text.old.items ++ flat_map comma_name (names_of names.now)) }
{
    for name in names {
        text.extend_from_slice(b", ")?;
        text.extend_from_slice(*name)?;
    }
    Ok(())
}

/// Adds to a text how a module is needed.
fn push_through(text: &mut Vec<u8>, names: &[&[u8]]) -> Result<(), AllocError>
    ensures { OnOk result (text.new.items ≡ text.old.items ++ text_through (names_of names.now)) }
{
    match names.split_first() {
        Some((first, others)) => {
            text.extend_from_slice(b" through ")?;
            text.extend_from_slice(*first)?;
            push_names(text, others)
        }
        None => text.extend_from_slice(b", direct"),
    }
}

/// Adds what a part says to people.
fn push_text_piece(text: &mut Vec<u8>, piece: Piece<'_>) -> Result<(), AllocError>
    ensures { OnOk result (text.new.items ≡ text.old.items ++ text_piece (piece_of piece.entry)) }
{
    match piece {
        Piece::Kind(_) | Piece::Tag(_, _) | Piece::Flag(_, _) => Ok(()),
        Piece::Words(words) => text.extend_from_slice(words),
        Piece::Field(_, value) => text.extend_from_slice(value),
        Piece::Number(_, number) => push_number(text, number),
        Piece::Through(names) => push_through(text, names),
    }
}

/// Adds what parts say to people.
pub(crate) fn push_text(text: &mut Vec<u8>, pieces: &[Piece<'_>]) -> Result<(), AllocError>
    ensures { OnOk result (text.new.items ≡ text.old.items ++ text_of (pieces_of pieces.now)) }
{
    for piece in pieces {
        push_text_piece(text, *piece)?;
    }
    Ok(())
}

/// Adds the key of a field after others.
fn push_key(text: &mut Vec<u8>, key: &[u8]) -> Result<(), AllocError>
    ensures { OnOk result (text.new.items ≡ text.old.items ++ key_text key.now) }
{
    text.push(b',')?;
    push_quoted(text, key)?;
    text.push(b':')?;
    Ok(())
}

fn push_field(text: &mut Vec<u8>, key: &[u8], value: &[u8]) -> Result<(), AllocError>
    ensures { OnOk result (text.new.items ≡ text.old.items ++ key_text key.now ++ quoted value.now) }
{
    push_key(text, key)?;
    push_quoted(text, value)
}

/// Adds a field, unless it has no value.
fn push_tag(text: &mut Vec<u8>, key: &[u8], value: &[u8]) -> Result<(), AllocError>
    ensures { OnOk result (text.new.items ≡ text.old.items ++ json_tag key.now value.now) }
{
    if value.is_empty() {
        Ok(())
    } else {
        push_field(text, key, value)
    }
}

fn push_flag(text: &mut Vec<u8>, key: &[u8], value: bool) -> Result<(), AllocError>
    ensures { OnOk result (text.new.items ≡ text.old.items ++ flag_text key.now value) }
{
    push_key(text, key)?;
    let word: &[u8] = if value { b"true" } else { b"false" };
    text.extend_from_slice(word)
}

/// Adds names as strings, each after a comma.
fn push_quoted_names(text: &mut Vec<u8>, names: &[&[u8]]) -> Result<(), AllocError>
    ensures { OnOk result (text.new.items ≡ text.old.items ++ flat_map comma_quoted (names_of names.now)) }
{
    for name in names {
        text.push(b',')?;
        push_quoted(text, *name)?;
    }
    Ok(())
}

/// Adds a list of strings.
#[tactic(auto, unfolding(crate::specs::Pieces::json_list))]
fn push_list(text: &mut Vec<u8>, first: &[u8], others: &[&[u8]]) -> Result<(), AllocError>
    ensures { OnOk result (text.new.items ≡ text.old.items ++ json_list first.now (names_of others.now)) }
{
    text.push(b'[')?;
    push_quoted(text, first)?;
    push_quoted_names(text, others)?;
    text.push(b']')?;
    Ok(())
}

/// Adds the fields of how a module is needed.
fn push_through_fields(text: &mut Vec<u8>, names: &[&[u8]]) -> Result<(), AllocError>
    ensures { OnOk result (text.new.items ≡ text.old.items ++ json_through (names_of names.now)) }
{
    match names.split_first() {
        Some((first, others)) => {
            push_flag(text, b"direct", false)?;
            push_key(text, b"through")?;
            push_list(text, *first, others)
        }
        None => push_flag(text, b"direct", true),
    }
}

/// Adds what a part says to programs.
fn push_json_piece(text: &mut Vec<u8>, piece: Piece<'_>) -> Result<(), AllocError>
    ensures { OnOk result (text.new.items ≡ text.old.items ++ json_piece (piece_of piece.entry)) }
{
    match piece {
        Piece::Kind(word) => {
            push_quoted(text, b"what")?;
            text.push(b':')?;
            push_quoted(text, word)
        }
        Piece::Words(_) => Ok(()),
        Piece::Field(key, value) => push_field(text, key, value),
        Piece::Tag(key, value) => push_tag(text, key, value),
        Piece::Flag(key, value) => push_flag(text, key, value),
        Piece::Number(key, number) => {
            push_key(text, key)?;
            push_number(text, number)
        }
        Piece::Through(names) => push_through_fields(text, names),
    }
}

/// Adds what parts say to programs: one object.
pub(crate) fn push_json(text: &mut Vec<u8>, pieces: &[Piece<'_>]) -> Result<(), AllocError>
    ensures { OnOk result (text.new.items ≡ text.old.items ++ json_of (pieces_of pieces.now)) }
{
    text.push(b'{')?;
    for piece in pieces {
        push_json_piece(text, *piece)?;
    }
    text.push(b'}')?;
    Ok(())
}
