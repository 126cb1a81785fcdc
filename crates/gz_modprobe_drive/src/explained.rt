//! Why an answer is as it is, for people or for programs.
ghost use Rattle.std.specs.Prelude.{IfOk, IfSome};
ghost use Rattle.gz_modprobe_drive.specs.Shapes.{AreFacts};

use crate::formed::lines_by;
use crate::shape::Shape;
use crate::texts::Machine;
use answer_facts::{Origin, origin_lines};
use answer_reasons::{Sources, explanation};
use bumpalo::Bump;
use kmod_query::{Query, World};
use modprobe_words::{Form, Level, Messages};
use std::alloc::{AllocError, Global};
use std::io::Write;

/// The facts of an explanation: in JSON with the machine that they are of, or in a form. Apart from `explained`, whose
/// arguments have more lifetimes than the prover takes for `Sources`.
fn lines_of<'a>(
    alloc: Global,
    form: Form,
    origin: Option<Origin<'_>>,
    sources: &Sources<'a>,
    world: &World<'a>,
    query: &Query<'a>,
) -> Result<Vec<u8>, AllocError>
    ensures { IfOk result (λ text. IfSome origin.entry (λ own. AreFacts own text.items)) }
{
    let facts = explanation(alloc, sources, world, query)?;
    match origin {
        Some(origin) => origin_lines(alloc, origin, &facts),
        None => lines_by(alloc, form, &facts),
    }
}

/// Why an answer is as it is, in JSON with the machine that it is of, or in the form that is asked for. It fails only if memory
/// runs out.
pub(crate) fn explained(
    alloc: Global,
    machine: &Machine,
    origin: Option<Origin<'_>>,
    world: &World<'_>,
    query: &Query<'_>,
) -> Result<Vec<u8>, AllocError>
    ensures { IfOk result (λ text. IfSome origin.entry (λ own. AreFacts own text.items)) }
{
    let paths = machine.conf.paths(alloc)?;
    let texts = Bump::new(alloc);
    let sources = Sources {
        paths: &paths,
        files: &machine.conf.files,
        command_line: machine.conf.command_line.as_deref().unwrap_or(b""),
        hidden: &machine.conf.hidden,
        unread: &machine.evidence.unread,
        holders: &machine.evidence.holders,
        whole: machine.whole,
        builtin: &machine.modules.builtin,
        devices: &[],
        texts: &texts,
    };
    lines_of(alloc, machine.evidence.form, origin, &sources, world, query)
}

/// Tells why an answer is as it is, if that is asked for and not on standard output.
pub(crate) fn explain<E: Write>(
    alloc: Global,
    machine: &Machine,
    world: &World<'_>,
    query: &Query<'_>,
    messages: &mut Messages<'_, E>,
) {
    if !messages.explains || matches!(machine.shape, Shape::Json) {
        return;
    }
    match explained(alloc, machine, None, world, query) {
        Ok(lines) => {
            let _ = messages.errors.write_all(&lines);
        }
        Err(_) => {
            let text = b"out of memory: the answer is not explained";
            messages.tell_always(Level::Error, text, b"", b"", b"");
        }
    }
}
