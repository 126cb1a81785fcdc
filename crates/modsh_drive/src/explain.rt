//! What explains a message to people, in lines that begin with two spaces.

use crate::hints::{Faulty, hint_of};
use crate::notes::{note_about, note_cut, note_idle};
use crate::places::Place;
use crate::witness::Kept;
use modprobe::{RunFault, Section, ServeFault, SetupCode, SetupFault};
use program_frame::{Shown, catalogue_faults, tell_hint, tell_sentence};
use std::alloc::AllocError;
use std::io::Write;

fn setup_sentence(code: SetupCode) -> &'static str {
    match code {
        SetupCode::C1 => catalogue_faults::NO_LINE,
        SetupCode::C2 => catalogue_faults::SECOND_MODULE,
        SetupCode::C3 => catalogue_faults::SECOND_EXPORT,
        SetupCode::C4 => catalogue_faults::TOO_MANY,
        SetupCode::M1 => "A line of modules.dep has no colon.",
        SetupCode::M2 => "A path of modules.dep has an empty name.",
        SetupCode::M3 => "A name has a line in modules.dep already.",
        SetupCode::B1 => "A line stands before the first section line.",
        SetupCode::Read => run_sentence(RunFault::Read),
        SetupCode::Memory => run_sentence(RunFault::Memory),
        SetupCode::Turns => run_sentence(RunFault::Turns),
        SetupCode::LongLine => run_sentence(RunFault::LongLine),
    }
}

fn run_sentence(fault: RunFault) -> &'static str {
    match fault {
        RunFault::Read => "Standard input could not be read.",
        RunFault::Write => "Standard output could not be written, or took nothing.",
        RunFault::Memory => "There was no memory.",
        RunFault::Turns => "A session has read its input 16,777,216 times.",
        RunFault::LongLine => "A line of the input has more than 65,535 bytes.",
    }
}

/// The section in whose text the line of a code is counted.
fn section_of(code: SetupCode) -> Option<Section> {
    match code {
        SetupCode::C1 | SetupCode::C2 | SetupCode::C3 | SetupCode::C4 => Some(Section::Catalogue),
        SetupCode::M1 | SetupCode::M2 | SetupCode::M3 => Some(Section::Dep),
        _ => None,
    }
}

/// Tells where a line stands, and its bytes.
fn tell_line<E: Write>(place: Place<'_>, line: &[u8], errors: &mut E) {
    let text = Shown(line);
    let _ = writeln!(errors, "  {place}: {text}");
}

/// Explains a fault of the sections: the line that it is in, what is wrong with it, and what may have been meant.
fn explain_setup<E: Write>(fault: &SetupFault, kept: &Kept<'_>, errors: &mut E) {
    let faulty = match (section_of(fault.code), fault.line) {
        (Some(section), Some(number)) => {
            let faulty = Faulty::of(kept.text(section), number);
            tell_line(kept.places.in_section(section, number), faulty.line, errors);
            faulty
        }
        _ => {
            if matches!(fault.code, SetupCode::B1 | SetupCode::LongLine) {
                tell_in_hand(kept, errors);
            }
            Faulty::in_hand(kept.in_hand.as_slice())
        }
    };
    tell_sentence(setup_sentence(fault.code), errors);
    tell_hint(hint_of(fault.code, &faulty), errors);
}

/// Tells the line after those that were read, which was in hand.
fn tell_in_hand<E: Write>(kept: &Kept<'_>, errors: &mut E) {
    let place = kept.places.of_line(kept.lines.saturating_add(1));
    tell_line(place, kept.in_hand.as_slice(), errors);
}

fn explain_fault<E: Write>(fault: &ServeFault, kept: &Kept<'_>, errors: &mut E) {
    match fault {
        ServeFault::Setup(fault) => explain_setup(fault, kept, errors),
        ServeFault::Run(fault) => {
            if matches!(fault, RunFault::LongLine) {
                tell_in_hand(kept, errors);
            }
            tell_sentence(run_sentence(*fault), errors);
        }
        ServeFault::Memory => tell_sentence(run_sentence(RunFault::Memory), errors),
    }
}

/// Tells a fault, or that the input has no session.
pub(crate) fn tell_answer<E: Write>(
    answer: &Result<u64, ServeFault>,
    kept: &Kept<'_>,
    errors: &mut E,
) {
    let _ = match answer {
        Err(fault) => writeln!(errors, "modsh: {fault}"),
        Ok(_) if kept.lines == 0 => writeln!(errors, "modsh: the input is empty"),
        Ok(_) if !kept.has_session => writeln!(errors, "modsh: the input has no line %session"),
        Ok(_) => Ok(()),
    };
}

/// Tells all that is reported after a session: its fault, where the catalogue may be cut, lines without effect, and lines
/// about nothing.
pub(crate) fn explain<E: Write>(answer: &Result<u64, ServeFault>, kept: &Kept<'_>, errors: &mut E) {
    match answer {
        Err(fault) => explain_fault(fault, kept, errors),
        Ok(_) if !kept.has_session => tell_sentence(
            "The input has no line %session, and so no command.",
            errors,
        ),
        Ok(_) => {}
    }
    note_cut(kept, errors);
    let idle = note_idle(kept, errors);
    let _ = errors.write_all(kept.notes.as_slice());
    note_about(kept, errors);
    if idle.is_err() || kept.is_short {
        let _ = writeln!(errors, "modsh: note: there was no memory to explain more");
    }
}

/// Tells the notes of a lint, and answers how many there are. No memory refuses, also if there was none to keep them.
pub(crate) fn tell_lint<E: Write>(kept: &Kept<'_>, errors: &mut E) -> Result<usize, AllocError> {
    let idle = note_idle(kept, errors)?;
    note_about(kept, errors);
    if kept.is_short {
        return Err(AllocError);
    }
    Ok(idle.saturating_add(kept.about.len()))
}
