//! Reading lines of /proc/modules.
ghost use Rattle.std.specs.Prelude.{◌≡◌, ◌≢◌, ◌==◌, ◌&&◌, position, IfOk, IfErr, Ok, Err};
ghost use Rattle.std.specs.List.{slice_split};
ghost use Rattle.text_parts.specs.Text.{texts_of};
ghost use Rattle.proc_modules.specs.Reading.{is_mark, is_end, users_in, users_of, numbers_in, state_in, first_line, line_in, line_of, ReadsLine, ReadsUsers};

use crate::line::{Line, LineError, LineState};
use crate::names::Names;
use crate::words::{is_address, is_line_name, is_taint, line_number, shown_state};
use std::alloc::{AllocError, Global};
use text_parts::{Name, is_same};

/// The parts of a text, which the byte divides.
fn parts<'a>(alloc: Global, text: &'a [u8], divider: u8) -> Result<Vec<&'a [u8]>, AllocError>
    ensures { IfOk result (λ found. texts_of found.items ≡ slice_split (λ byte. byte == divider) text.now) }
{
    text.split(|byte| *byte == divider).collect(alloc)
}

fn is_end(parts: &[&[u8]]) -> bool
    ensures { result ≡ is_end (texts_of parts.now) }
{
    match parts {
        [last] => last.is_empty(),
        _ => false,
    }
}

/// Whether the part is the mark of a permanent module, with the empty last part alone after it.
fn is_last_mark(part: &[u8], later: &[&[u8]]) -> bool
    ensures { result ≡ (is_mark part.now && is_end (texts_of later.now)) }
{
    is_same(part, b"[permanent]") && is_end(later)
}

/// The users and the mark that the parts of their field are.
fn users_in(alloc: Global, parts: &[&[u8]]) -> Result<(Names, bool), LineError>
    ensures { ReadsUsers (users_in (texts_of parts.now)) result }
{
    let mut users = Names::new(alloc);
    for (i, user) in parts.iter().enumerate() {
        let later = &parts[i + 1..];
        if later.is_empty() {
            return if user.is_empty() {
                Ok((users, false))
            } else {
                Err(LineError::BadUsers)
            };
        }
        if is_last_mark(user, later) {
            return Ok((users, true));
        }
        if !is_line_name(user) {
            return Err(LineError::BadUsers);
        }
        let name = Name::new(alloc, user)?;
        users.push(name)?;
    }
    Err(LineError::BadUsers)
}

fn users(alloc: Global, field: &[u8]) -> Result<(Names, bool), LineError>
    ensures { ReadsUsers (users_of field.now) result }
{
    if is_same(field, b"-") {
        return Ok((Names::new(alloc), false));
    }
    if field.is_empty() {
        return Err(LineError::BadUsers);
    }
    let parts = parts(alloc, field, b',')?;
    users_in(alloc, &parts)
}

fn numbers(name: &[u8], size: &[u8], count: &[u8]) -> Result<(u32, u32), LineError>
    ensures good { IfOk result (λ found. numbers_in name.now size.now count.now ≡ Ok (found.0, found.1)) }
    ensures refused { IfErr result (λ e. numbers_in name.now size.now count.now ≡ Err e) }
{
    if !is_line_name(name) {
        return Err(LineError::BadName);
    }
    let size = line_number(size).ok_or(LineError::BadNumber)?;
    let count = line_number(count).ok_or(LineError::BadNumber)?;
    Ok((size, count))
}

fn state(word: &[u8], address: &[u8], more: &[&[u8]]) -> Result<LineState, LineError>
    ensures { result ≡ state_in word.now address.now (texts_of more.now) }
{
    let state = shown_state(word).ok_or(LineError::BadState)?;
    if !is_address(address) || !is_taint(more) {
        return Err(LineError::BadAddress);
    }
    Ok(state)
}

/// The line that fields are.
fn good_line(alloc: Global, fields: &[&[u8]]) -> Result<Line, LineError>
    ensures { ReadsLine (line_in (texts_of fields.now)) result }
{
    let [name, size, count, used_by, word, address, more @ ..] = fields else {
        return Err(LineError::MissingField);
    };
    let (size, count) = numbers(name, size, count)?;
    let (users, permanent) = users(alloc, used_by)?;
    let state = state(word, address, more)?;
    let name = Name::new(alloc, name)?;
    Ok(Line {
        name,
        size,
        count,
        users,
        permanent,
        state,
    })
}

fn line_end(text: &[u8]) -> Option<usize>
    ensures { result ≡ position (λ byte. byte == 10) text.now }
{
    text.iter().position(|byte| *byte == b'\n')
}

/// The bytes before the first line feed, and how many bytes there are with it.
fn first_line(text: &[u8]) -> (&[u8], usize)
    ensures { (result.0.now, result.1) ≡ first_line text.now (position (λ byte. byte == 10) text.now) }
{
    match line_end(text) {
        Some(end) => (&text[..end], end + 1),
        None => (text, text.len()),
    }
}

/// Reads a line without its end.
fn read_fields(alloc: Global, line: &[u8]) -> Result<Line, LineError>
    ensures { ReadsLine (line_in (slice_split (λ byte. byte == 32) line.now)) result }
{
    let fields = parts(alloc, line, b' ')?;
    good_line(alloc, &fields)
}

/// Reads the line of /proc/modules (proc(5)) with which the text begins, and says how many bytes it takes. The line
/// goes up to the first line feed, which it takes too, or to the end of the text, and is cut at each space. The
/// refusal is the first fault from the left; a line of fewer than six fields is refused first.
pub fn read_line(alloc: Global, text: &[u8]) -> Result<(Line, usize), LineError>
    ensures line { IfOk result (λ x. line_of text.now ≡ Ok (x.0, x.1)) }
    ensures refusal { IfErr result (λ e. e ≢ LineError.Memory → line_of text.now ≡ Err e) }
{
    let (first, used) = first_line(text);
    let line = read_fields(alloc, first)?;
    Ok((line, used))
}
