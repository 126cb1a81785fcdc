//! Files that are not read, as facts.
ghost use Rattle.std.specs.Prelude.{◌≡◌, ◌++◌, map, OnOk};
ghost use Rattle.answer_facts.specs.Facts.{pieces_of_fact, pieces_of_facts};
ghost use Rattle.answer_reasons.specs.FileFacts.{hidden_file, unread_file};

use crate::sources::UnreadFile;
use answer_facts::{Fact, FileFact, Spot, What};
use modprobe_files::HiddenFile;
use std::alloc::AllocError;

/// A file that another one of its name hides.
fn fact_of_hidden(file: &HiddenFile) -> Fact<'_>
    ensures { pieces_of_fact result ≡ hidden_file file.entry.now }
{
    Fact {
        whom: &file.path,
        what: What::File(FileFact::Hidden(&file.by)),
        spot: Spot::Nowhere,
    }
}

/// A file beside the configuration that is not read.
fn fact_of_unread(file: &UnreadFile) -> Fact<'_>
    ensures { pieces_of_fact result ≡ unread_file file.entry.now }
{
    Fact {
        whom: &file.path,
        what: What::File(FileFact::Unread(file.reason)),
        spot: Spot::Nowhere,
    }
}

/// Adds a fact for each file that another one of its name hides, in their order. It fails only if memory runs out.
pub fn add_hidden<'a>(hidden: &'a [HiddenFile], facts: &mut Vec<Fact<'a>>) -> Result<(), AllocError>
    ensures { OnOk result (pieces_of_facts facts.new.items ≡ pieces_of_facts facts.old.items ++ map hidden_file hidden.entry.now) }
{
    for file in hidden {
        facts.push(fact_of_hidden(file))?;
    }
    Ok(())
}

/// Adds a fact for each file beside the configuration that is not read, in their order. It fails only if memory runs out.
pub fn add_unread<'a>(unread: &'a [UnreadFile], facts: &mut Vec<Fact<'a>>) -> Result<(), AllocError>
    ensures { OnOk result (pieces_of_facts facts.new.items ≡ pieces_of_facts facts.old.items ++ map unread_file unread.entry.now) }
{
    for file in unread {
        facts.push(fact_of_unread(file))?;
    }
    Ok(())
}
