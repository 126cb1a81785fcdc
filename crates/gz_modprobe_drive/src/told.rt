//! What standard output gets of an answer, by what is asked for.
ghost use Rattle.std.specs.Prelude.{◌≡◌, ◌≢◌, IfOk, OnErr};
ghost use Rattle.gz_modprobe_drive.specs.Shapes.{IsJson, IsPart, IsWhole};
ghost use Rattle.gz_modprobe_drive.specs.declared.shape.Shape.TheVariants.{Json, Lines, Shell};
ghost use Rattle.modprobe_words.specs.declared.written.Written.TheVariants.{Whole};

use crate::explained::explained;
use crate::shape::Shape;
use crate::texts::Machine;
use answer_facts::{Origin, plan_lines, shell_lines};
use kmod_query::{Answer, Query, World};
use modprobe_words::{Level, Messages, Written, write_whole};
use std::alloc::{AllocError, Global};
use std::io::Write;

/// What stands behind the last slash.
pub(crate) fn last_name(path: &[u8]) -> &[u8] {
    match path.iter().rposition(|byte| *byte == b'/') {
        Some(place) => &path[place + 1..],
        None => path,
    }
}

/// An answer in JSON: its lines, and the facts that gave it.
fn json_of(
    alloc: Global,
    machine: &Machine<'_>,
    world: &World<'_>,
    query: &Query<'_>,
    answer: &Answer,
) -> Result<Vec<u8>, AllocError>
    ensures { IfOk result (λ text. IsJson answer.now text.items) }
{
    let origin = Origin {
        root: machine.root,
        release: last_name(machine.directory),
    };
    let mut text = plan_lines(alloc, origin, answer.output())?;
    let facts = explained(alloc, machine, Some(origin), world, query)?;
    text.extend_from_slice(&facts)?;
    Ok(text)
}

fn write_lines<O: Write>(answer: &Answer, output: &mut O) -> Written
    ensures begun { IsPart Lines answer.now (O.contents output.old) (O.contents output.new) }
    ensures whole { result ≡ Whole → IsWhole Lines answer.now (O.contents output.old) (O.contents output.new) }
{
    write_whole(output, answer.output())
}

fn write_json<O: Write>(
    alloc: Global,
    machine: &Machine<'_>,
    world: &World<'_>,
    query: &Query<'_>,
    answer: &Answer,
    output: &mut O,
) -> Result<Written, AllocError>
    ensures begun { IfOk result (λ written. IsPart Json answer.now (O.contents output.old) (O.contents output.new)) }
    ensures whole { IfOk result (λ written. written ≡ Whole → IsWhole Json answer.now (O.contents output.old) (O.contents output.new)) }
    ensures kept { OnErr result (O.contents output.new ≡ O.contents output.old) }
{
    let text = json_of(alloc, machine, world, query, answer)?;
    Ok(write_whole(output, &text))
}

/// That a shell may not have the answer is told, and counts as a write that failed.
fn write_shell<O: Write, E: Write>(
    alloc: Global,
    answer: &Answer,
    output: &mut O,
    messages: &mut Messages<'_, E>,
) -> Result<Written, AllocError>
    ensures begun { IfOk result (λ written. O.contents output.new ≢ O.contents output.old → IsPart Shell answer.now (O.contents output.old) (O.contents output.new)) }
    ensures whole { IfOk result (λ written. written ≡ Whole → IsWhole Shell answer.now (O.contents output.old) (O.contents output.new)) }
    ensures kept { OnErr result (O.contents output.new ≡ O.contents output.old) }
{
    match shell_lines(alloc, answer.output())? {
        Some(text) => Ok(write_whole(output, &text)),
        None => {
            let text = b"--shell: the answer has a line that is neither insmod nor rmmod";
            messages.tell_always(Level::Error, text, b"", b"", b"");
            Ok(Written::Closed)
        }
    }
}

/// Writes what is asked for of an answer. Returns how it was written; an answer that no shell may have is not, and that is
/// told. It fails only if memory runs out, and writes nothing then.
pub(crate) fn write_answer<O: Write, E: Write>(
    alloc: Global,
    machine: &Machine<'_>,
    world: &World<'_>,
    query: &Query<'_>,
    answer: &Answer,
    output: &mut O,
    messages: &mut Messages<'_, E>,
) -> Result<Written, AllocError>
    ensures begun { IfOk result (λ written. O.contents output.new ≢ O.contents output.old → IsPart machine.now.shape answer.now (O.contents output.old) (O.contents output.new)) }
    ensures whole { IfOk result (λ written. written ≡ Whole → IsWhole machine.now.shape answer.now (O.contents output.old) (O.contents output.new)) }
    ensures kept { OnErr result (O.contents output.new ≡ O.contents output.old) }
{
    match machine.shape {
        Shape::Lines => Ok(write_lines(answer, output)),
        Shape::Json => write_json(alloc, machine, world, query, answer, output),
        Shape::Shell => write_shell(alloc, answer, output, messages),
    }
}
