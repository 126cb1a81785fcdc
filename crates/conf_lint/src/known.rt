//! What names a session has.
ghost use Rattle.std.specs.Prelude.{◌≡◌, IfOk};
ghost use Rattle.text_parts.specs.Text.{texts_of};
ghost use Rattle.conf_lint.specs.Notes.{is_alias, is_answered, is_command};

use crate::setting::{Setting, does_nothing};
use alias_match::Aliases;
use dep_index::Catalogue;
use modprobe_conf::Conf;
use std::alloc::{AllocError, Global};

/// What names a session has: its modules, of which some may be built in, the aliases of modules.alias, and those of the
/// configuration.
#[derive(Clone, Copy)]
pub struct Known<'a> {
    pub catalogue: &'a Catalogue,
    pub aliases: &'a Aliases,
    pub configuration: &'a Conf,
}

/// Whether an alias of the configuration or of modules.alias matches the name.
fn is_alias(alloc: Global, known: &Known<'_>, name: &[u8]) -> Result<bool, AllocError>
    ensures { IfOk result (λ is. is ≡ is_alias known.now name.now) }
{
    let own = known.configuration.matching_aliases(alloc, name)?;
    let found = known.aliases.matching(alloc, name)?;
    Ok(own.len() > 0 || found.len() > 0)
}

/// Whether an install or remove line has the name, for which modprobe(8) runs its command whether a module has it or not.
pub(crate) fn is_command(known: &Known<'_>, name: &[u8]) -> bool
    ensures { result ≡ is_command known.now name.now }
{
    known.configuration.install_line(name) || known.configuration.remove_line(name)
}

/// Whether a name that no module has stands for something in a line of it.
pub(crate) fn is_answered(
    alloc: Global,
    known: &Known<'_>,
    name: &[u8],
    setting: Setting,
    words: &[&[u8]],
) -> Result<bool, AllocError>
    ensures { IfOk result (λ is. is ≡ is_answered known.now name.now setting (texts_of words.now)) }
{
    let matched = is_alias(alloc, known, name)?;
    let run = match setting {
        Setting::Command => !does_nothing(words),
        Setting::Blacklist | Setting::Options | Setting::Softdep => is_command(known, name),
    };
    Ok(matched || run)
}
