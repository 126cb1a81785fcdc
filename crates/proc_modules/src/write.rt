//! Writing lines of /proc/modules.
ghost use Rattle.std.specs.Prelude.{◌≡◌, ◌++◌, ◌∷◌, [], OnOk, IfOk, decimal};
ghost use Rattle.proc_modules.specs.LineText.{line_text, head_text, tail_text, with_comma, state_text, users_end};

use crate::line::{Line, LineState};
use itoa::Buffer;
use std::alloc::{AllocError, Global};

/// Adds a number in decimal. It fails only if memory runs out; what stands in the text then is not said.
pub fn push_number(text: &mut Vec<u8>, n: usize) -> Result<(), AllocError>
    ensures { OnOk result (text.new.items ≡ text.old.items ++ decimal n) }
{
    let mut buffer = Buffer::new();
    text.extend_from_slice(buffer.format(n).as_bytes())
}

/// Adds the fields before the users, each with the space after it.
pub(crate) fn push_head(
    text: &mut Vec<u8>,
    name: &[u8],
    size: u32,
    count: u32,
) -> Result<(), AllocError>
    ensures { OnOk result (text.new.items ≡ text.old.items ++ head_text name.now size count) }
{
    text.extend_from_slice(name)?;
    text.push(b' ')?;
    push_number(text, size as usize)?;
    text.push(b' ')?;
    push_number(text, count as usize)?;
    text.push(b' ')?;
    Ok(())
}

/// Adds a user and its comma.
pub(crate) fn push_user(text: &mut Vec<u8>, user: &[u8]) -> Result<(), AllocError>
    ensures { OnOk result (text.new.items ≡ text.old.items ++ with_comma user.now) }
{
    text.extend_from_slice(user)?;
    text.push(b',')?;
    Ok(())
}

/// What stands after the users in their field.
fn users_end(is_used: bool, permanent: bool) -> &'static [u8]
    ensures { result.now ≡ users_end is_used permanent }
{
    match (is_used, permanent) {
        (_, true) => b"[permanent],",
        (true, false) => b"",
        (false, false) => b"-",
    }
}

fn state_text(state: LineState) -> &'static [u8]
    ensures { result.now ≡ state_text state }
{
    match state {
        LineState::Live => b"Live",
        LineState::Loading => b"Loading",
        LineState::Unloading => b"Unloading",
    }
}

/// Adds what stands after the users: the end of their field, the state, the address and the line end.
pub(crate) fn push_tail(
    text: &mut Vec<u8>,
    is_used: bool,
    permanent: bool,
    state: LineState,
) -> Result<(), AllocError>
    ensures { OnOk result (text.new.items ≡ text.old.items ++ tail_text is_used permanent state) }
{
    text.extend_from_slice(users_end(is_used, permanent))?;
    text.push(b' ')?;
    text.extend_from_slice(state_text(state))?;
    text.extend_from_slice(b" 0x0000000000000000\n")?;
    Ok(())
}

/// The line as the kernel writes it into /proc/modules (proc(5)): `NAME SIZE COUNT USERS STATE ADDRESS`, the address
/// all zeros, with a line end.
pub fn write_line(alloc: Global, line: &Line) -> Result<Vec<u8>, AllocError>
    ensures { IfOk result (λ text. text.items ≡ line_text line.now) }
{
    let mut text = Vec::new(alloc);
    push_head(&mut text, line.name.as_bytes(), line.size, line.count)?;
    let users = line.users.as_slice();
    for user in users {
        push_user(&mut text, user.as_bytes())?;
    }
    push_tail(&mut text, !users.is_empty(), line.permanent, line.state)?;
    Ok(text)
}
