//! Facts in the form that is asked for.
ghost use Rattle.std.specs.Prelude.{◌≡◌, IfOk, true};
ghost use Rattle.std.specs.List.{list_all};
ghost use Rattle.answer_facts.specs.Shown.{is_shown};
ghost use Rattle.modprobe_words.specs.declared.written.Written.TheVariants.{Whole};
ghost use Rattle.gz_modprobe_drive.specs.Begun.{AreBegun, WritesFacts};
ghost use Rattle.gz_modprobe_drive.specs.Formed.{AreWritten, form_by, lines_by};

use answer_facts::{Fact, json_lines, text_lines};
use modprobe_words::{Form, Written, write_whole};
use std::alloc::{AllocError, Global};
use std::io::Write;

/// The form of what is told: text, unless another one is asked for.
pub(crate) fn form_by(explain: Option<Form>) -> Form
    ensures { result ≡ form_by explain }
{
    explain.unwrap_or(Form::Text)
}

/// Facts in a form, each once, in their order. It fails only if memory runs out.
pub(crate) fn lines_by(alloc: Global, form: Form, facts: &[Fact<'_>]) -> Result<Vec<u8>, AllocError>
    ensures lines { IfOk result (λ lines. lines.items ≡ lines_by form facts.now) }
    ensures shown { IfOk result (λ lines. list_all is_shown lines.items ≡ true) }
{
    match form {
        Form::Text => text_lines(alloc, facts),
        Form::Json => json_lines(alloc, facts),
    }
}

/// Writes facts in a form. Returns how they were written. It fails only if memory runs out.
pub(crate) fn write_facts<O: Write>(
    alloc: Global,
    form: Form,
    facts: &[Fact<'_>],
    output: &mut O,
) -> Result<Written, AllocError>
    ensures whole { IfOk result (λ written. written ≡ Whole → AreWritten form facts.now (O.contents output.old) (O.contents output.new)) }
    ensures begun { WritesFacts form (O.contents output.old) (O.contents output.new) }
{
    let lines = lines_by(alloc, form, facts)?;
    Ok(write_whole(output, &lines))
}
