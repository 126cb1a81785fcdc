//! The reply to a line, and whether anything may have changed.
ghost use Rattle.std.specs.Prelude.{◌≡◌, ◌∷◌, ◌++◌, [], codes, false, map, IfOk, OnOk, All, ◌<◌, length};
ghost use Rattle.modprobe.specs.Setup.{name_at};
ghost use Rattle.modprobe.specs.Plans.{words_text};
ghost use Rattle.modprobe.specs.Outcomes.{refused};
ghost use Rattle.held_lines.specs.Outcomes.{done, first_name};
ghost use Rattle.held_lines.specs.Holds.{held_line};

use modprobe::{Code, Reply, Setup};
use std::alloc::{AllocError, Global};

/// The reply to a line, and whether the table or its holders may have changed.
#[derive(Drop)]
pub struct HeldReply {
    pub reply: Reply,
    /// `false` only if all is as it was before the line.
    pub changed: bool,
}

impl HeldReply {
    /// The reply of a line that changes nothing.
    pub(crate) fn of(reply: Reply) -> HeldReply
        ensures { result ≡ record { reply = reply; changed = false } }
    {
        HeldReply {
            reply,
            changed: false,
        }
    }
}

/// The reply of a line that is refused.
pub(crate) fn refuse(alloc: Global, code: Code, name: &[u8]) -> Result<HeldReply, AllocError>
    ensures { IfOk result (λ r. r ≡ record { reply = refused code name.now; changed = false }) }
{
    Ok(HeldReply::of(Reply::refused(alloc, code, name)?))
}

/// `ok`
pub(crate) fn done(alloc: Global) -> Result<Reply, AllocError>
    ensures { IfOk result (λ reply. reply ≡ done) }
{
    Ok(Reply::says(Vec::from_slice(alloc, b"ok\n")?))
}

/// Adds a space and the name, for each module.
fn push_names(text: &mut Vec<u8>, setup: &Setup, slots: &[usize]) -> Result<(), AllocError>
    requires { All (λ slot. slot < length setup.now.catalogue) slots.now }
    ensures { OnOk result (text.new.items ≡ text.old.items ++ words_text (map (name_at setup.now) slots.now)) }
{
    for slot in slots {
        text.extend_from_slice(b" ")?;
        text.extend_from_slice(setup.catalogue().name(*slot))?;
    }
    Ok(())
}

/// `ok`, and the names of the modules.
pub(crate) fn held_line(
    alloc: Global,
    setup: &Setup,
    slots: &[usize],
) -> Result<Vec<u8>, AllocError>
    requires { All (λ slot. slot < length setup.now.catalogue) slots.now }
    ensures { IfOk result (λ text. text.items ≡ held_line setup.now slots.now) }
{
    let mut text = Vec::from_slice(alloc, b"ok")?;
    push_names(&mut text, setup, slots)?;
    text.push(b'\n')?;
    Ok(text)
}

/// The name of the first of these modules; if there is none it is empty.
pub(crate) fn first_name<'a>(setup: &'a Setup, slots: &[usize]) -> &'a [u8]
    requires { All (λ slot. slot < length setup.now.catalogue) slots.now }
    ensures { result.now ≡ first_name setup.now slots.now }
{
    match slots {
        [first, ..] => setup.catalogue().name(*first),
        [] => b"",
    }
}
