//! In which form the aliases are kept for one command.

use crate::reading::journal_now;
use crate::shared::Shared;
use modprobe::{AliasForm, Setup};
use std::alloc::{AllocError, Global};
use std::fs::File;
use std::rt::Files;
use std::time::Clock;
use text_parts::{Name, find_words, whole_lines};

/// From how many look-ups on a table of aliases is made quicker than their text is read, about.
const MANY: usize = 10;

/// How many words of a journal's line stand before the names that are looked up, options aside: the journal's own word, the
/// command, and a holder. None if the line looks up no name.
fn words_before_names(words: &[&[u8]]) -> Option<usize> {
    let [_, command, ..] = words else {
        return None;
    };
    if *command == b"modprobe".as_slice() {
        Some(2)
    } else if *command == b"hold".as_slice() || *command == b"release".as_slice() {
        Some(3)
    } else {
        None
    }
}

fn is_option(word: &[u8]) -> bool {
    word.first() == Some(&b'-')
}

/// How many words of a journal's line are looked up and are no module's name.
fn aliases_in(alloc: Global, setup: &Setup, words: &[&[u8]]) -> Result<usize, AllocError> {
    let Some(before) = words_before_names(words) else {
        return Ok(0);
    };
    let mut count = 0usize;
    for word in words.iter().filter(|word| !is_option(word)).skip(before) {
        let name = Name::new(alloc, *word)?;
        if setup.catalogue().slot(name.as_bytes()).is_none() {
            count = count.saturating_add(1);
        }
    }
    Ok(count)
}

/// Whether many words of a journal are looked up among the aliases.
fn looks_up_many(alloc: Global, setup: &Setup, journal: &[u8]) -> Result<bool, AllocError> {
    let mut count = 0usize;
    let mut words = Vec::new(alloc);
    for line in whole_lines(journal) {
        find_words(&mut words, line)?;
        count = count.saturating_add(aliases_in(alloc, setup, &words)?);
        if count > MANY {
            return Ok(true);
        }
    }
    Ok(false)
}

/// In which form the aliases of a setup are kept for a command of these words. The journal is read without its lock, since
/// each form answers the same. One that cannot be read is reported when the command is answered.
pub(crate) fn form_for<R: Files<File = File> + Clock + AllocGlobal>(
    shared: &Shared<'_, R>,
    setup: &Setup,
    words: &[&[u8]],
) -> Result<AliasForm, AllocError> {
    if words.len() > MANY {
        return Ok(AliasForm::Table);
    }
    let Ok(journal) = journal_now(shared) else {
        return Ok(AliasForm::Text);
    };
    if looks_up_many(shared.alloc(), setup, &journal)? {
        Ok(AliasForm::Table)
    } else {
        Ok(AliasForm::Text)
    }
}
