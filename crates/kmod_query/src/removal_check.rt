//! Whether an object can be removed.
ghost use Rattle.std.specs.Prelude.{◌≡◌, IfOk, option_copied};
ghost use Rattle.kmod_query.specs.Objects.{object_of};
ghost use Rattle.kmod_query.specs.Removal.{absent_verdict, builtin_verdict, counts_state, has_no_users, has_users, is_absent, is_fatal};
ghost use Rattle.kmod_query.specs.Removal.{is_in_use, removal_command, shows_removal, verdict};
ghost use Rattle.kmod_query.specs.Verdicts.{verdict_of};
ghost use Rattle.kmod_query.specs.World.{facts_of};

use crate::answer::Failure;
use crate::asked::Asked;
use crate::commands::{remove_line, text_in};
use crate::lines::is_built_in;
use crate::object::Object;
use crate::query::{Ask, Query};
use crate::states::{ModuleState, ModuleStatus};
use crate::world::{alias_bytes, status_of};
use kmod_names::Text;
use std::alloc::{AllocError, Global};

/// What becomes of an object that is to be removed.
#[derive(Drop)]
pub enum Verdict {
    /// It is removed, as far as it is not in use.
    Remove,
    /// Nothing is done, and nothing failed.
    Pass,
    /// Nothing is done, and this is why.
    Refuse(Failure),
}

pub(crate) fn shows_removal(query: &Query) -> bool
    ensures { result ≡ shows_removal query.now }
{
    matches!(query.ask, Ask::ShowRemoval) || query.verbosity > 4
}

/// Whether a message that is shown ends a removal.
pub fn is_fatal(query: &Query) -> bool
    ensures { result ≡ is_fatal query.now }
{
    !query.all && 2 <= query.verbosity
}

pub(crate) fn removal_command<'a>(
    asked: &Asked<'a>,
    object: &Object,
) -> Result<Option<&'a [u8]>, AllocError>
    ensures { IfOk result (λ command. option_copied command ≡ removal_command (facts_of asked.now.world) asked.now.query (object_of object.now)) }
{
    if asked.query.ignore_commands {
        return Ok(None);
    }
    let line = remove_line(asked.alloc, &asked.world, &object.name, alias_bytes(object))?;
    Ok(text_in(line))
}

/// Whether states and users count.
pub(crate) fn counts_state(asked: &Asked, object: &Object) -> Result<bool, AllocError>
    ensures { IfOk result (λ counts. counts ≡ counts_state (facts_of asked.now.world) asked.now.query (object_of object.now)) }
{
    let command = removal_command(asked, object)?;
    Ok(command.is_none() && matches!(asked.query.ask, Ask::Remove))
}

pub(crate) fn is_absent(status: Option<ModuleStatus>) -> bool
    ensures { result ≡ is_absent status }
{
    match status {
        Some(status) => matches!(status.state, ModuleState::Other),
        None => true,
    }
}

/// Whether anything uses a module, as far as that is known: its count is known, and is not 0.
pub fn has_users(status: Option<ModuleStatus>) -> bool
    ensures { result ≡ has_users status }
{
    match status {
        Some(
            ModuleStatus {
                users: Some(users),
                ..
            },
        ) => users > 0,
        _ => false,
    }
}

pub(crate) fn has_no_users(status: Option<ModuleStatus>) -> bool
    ensures { result ≡ has_no_users status }
{
    match status {
        Some(
            ModuleStatus {
                users: Some(users),
                ..
            },
        ) => users == 0,
        _ => false,
    }
}

pub(crate) fn absent_verdict(
    alloc: Global,
    query: &Query,
    object: &Object,
) -> Result<Verdict, AllocError>
    ensures { IfOk result (λ verdict. verdict_of verdict ≡ absent_verdict query.now (object_of object.now)) }
{
    if query.first_time {
        return Ok(Verdict::Refuse(Failure::NotInKernel(Text::new(alloc, &object.name)?)));
    }
    Ok(Verdict::Pass)
}

pub(crate) fn builtin_verdict(
    alloc: Global,
    soft: bool,
    object: &Object,
) -> Result<Verdict, AllocError>
    ensures { IfOk result (λ verdict. verdict_of verdict ≡ builtin_verdict soft (object_of object.now)) }
{
    if soft {
        return Ok(Verdict::Pass);
    }
    Ok(Verdict::Refuse(Failure::Builtin(Text::new(alloc, &object.name)?)))
}

/// What becomes of an object that is to be removed, a soft item or not. It fails only if memory runs out.
pub(crate) fn judge(asked: &Asked, soft: bool, object: &Object) -> Result<Verdict, AllocError>
    ensures { IfOk result (λ own. verdict_of own ≡ verdict (facts_of asked.now.world) asked.now.query soft (object_of object.now)) }
{
    if !counts_state(asked, object)? {
        return Ok(Verdict::Remove);
    }
    if is_built_in(&asked.world, object) {
        return builtin_verdict(asked.alloc, soft, object);
    }
    if is_absent(status_of(&asked.world, &object.name)) {
        return absent_verdict(asked.alloc, &asked.query, object);
    }
    Ok(Verdict::Remove)
}

/// Whether an object that is to be removed is not, since it has users. It fails only if memory runs out.
pub(crate) fn is_in_use(asked: &Asked, object: &Object) -> Result<bool, AllocError>
    ensures { IfOk result (λ used. used ≡ is_in_use (facts_of asked.now.world) asked.now.query (object_of object.now)) }
{
    Ok(counts_state(asked, object)? && has_users(status_of(&asked.world, &object.name)))
}
