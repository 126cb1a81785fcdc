//! What a removal has taken, and what is left of the users of other modules.
ghost use Rattle.std.specs.Prelude.{◌≡◌, ◌++◌, fold, IfOk, OnOk};
ghost use Rattle.kmod_query.specs.Objects.{names_of, object_of};
ghost use Rattle.kmod_query.specs.Whole.{goes, gone_count, holders_of, is_gone, line_of, lines_of, status_after, with_fewer};
ghost use Rattle.kmod_query.specs.Whole.{with_module, with_object, with_unused};
ghost use Rattle.kmod_query.specs.World.{facts_of};

use crate::asked::Asked;
use crate::lines::push_name;
use crate::object::Object;
use crate::query::Query;
use crate::removal_check::{has_no_users, removal_command, shows_removal};
use crate::removal_lines::push_command;
use crate::states::ModuleStatus;
use crate::world::{World, needs_of, status_of};
use kmod_names::Text;
use std::alloc::{AllocError, Global};
use text_parts::is_same;

/// The modules that hold a module, as its folder `holders` below /sys/module lists them (sysfs(5)).
#[derive(Drop)]
pub struct Holders {
    pub module: Vec<u8>,
    pub names: Vec<Vec<u8>>,
}

/// What a removal does. The first text is the name of a module.
pub enum Taken {
    /// It goes, since it was asked for or is a soft dependency.
    Removed(Text),
    /// It goes, since nothing uses it once another one is gone, which needed it: the second text is that one's name.
    Unused(Text, Text),
    /// A remove line has a command for it, the second text. What that does is not known, so it counts for nothing.
    Commanded(Text, Text),
}

// By hand, since a derived drop is written out, and proved, at each place where a value is let go.
impl Drop for Taken {
    fn drop(self) {
        match self {
            Taken::Removed(_) => {}
            Taken::Unused(_, _) => {}
            Taken::Commanded(_, _) => {}
        }
    }
}

impl Taken {
    /// Whether a module of this name goes.
    fn goes(&self, name: &[u8]) -> bool
        ensures { result ≡ goes name.now self.now }
    {
        match self {
            Taken::Removed(own) | Taken::Unused(own, _) => is_same(name, own.as_bytes()),
            Taken::Commanded(_, _) => false,
        }
    }
}

/// Whether a module is gone.
pub fn is_gone(taken: &[Taken], name: &[u8]) -> bool
    ensures { result ≡ is_gone taken.now name.now }
{
    taken.iter().any(|own| own.goes(name))
}

/// The names of the modules that hold a module.
fn holders_of<'a>(holders: &'a [Holders], name: &[u8]) -> &'a [Vec<u8>]
    ensures { result.now ≡ holders_of holders.entry.now name.now }
{
    let mut rest = holders;
    'holders: while let Some((own, later)) = rest.split_first() {
        if is_same(name, &own.module) {
            return &own.names;
        }
        rest = later;
    }
    &[]
}

/// How many of these modules are gone.
fn gone_count(taken: &[Taken], names: &[Vec<u8>]) -> usize
    ensures { result ≡ gone_count taken.now names.now }
{
    names.iter().filter(|name| is_gone(taken, name)).count()
}

/// A status with so many users less.
fn with_fewer(count: usize, status: ModuleStatus) -> ModuleStatus
    ensures { result ≡ with_fewer count status }
{
    let users = match status.users {
        Some(users) => Some(users.saturating_sub(count as u64)),
        None => None,
    };
    ModuleStatus { users, ..status }
}

/// What /sys/module says of a module once others are gone.
pub(crate) fn status_after(
    world: &World,
    holders: &[Holders],
    taken: &[Taken],
    name: &[u8],
) -> Option<ModuleStatus>
    ensures { result ≡ status_after (facts_of world.now) holders.now taken.now name.now }
{
    if is_gone(taken, name) {
        return None;
    }
    let status = status_of(world, name)?;
    Some(with_fewer(gone_count(taken, holders_of(holders, name)), status))
}

/// A module that another one needed goes too, if nothing uses it now.
fn push_unused(
    alloc: Global,
    world: &World,
    holders: &[Holders],
    by: &[u8],
    taken: &mut Vec<Taken>,
    need: &[u8],
) -> Result<(), AllocError>
    ensures { OnOk result (taken.new.items ≡ with_unused (facts_of world.now) holders.now by.now taken.old.items need.now) }
{
    if has_no_users(status_after(world, holders, taken, need)) {
        taken.push(Taken::Unused(Text::new(alloc, need)?, Text::new(alloc, by)?))?;
    }
    Ok(())
}

/// What a module needed goes too, as far as nothing uses it by then.
fn push_needs(
    alloc: Global,
    world: &World,
    holders: &[Holders],
    by: &[u8],
    taken: &mut Vec<Taken>,
    needs: &[Vec<u8>],
) -> Result<(), AllocError>
    ensures { OnOk result (taken.new.items ≡ fold (with_unused (facts_of world.now) holders.now by.now) taken.old.items (names_of needs.now)) }
{
    'needs: for need in needs {
        push_unused(alloc, world, holders, by, taken, need)?;
    }
    Ok(())
}

/// A module goes, and then what it needs, as far as nothing uses that by then.
fn push_module(
    alloc: Global,
    world: &World,
    holders: &[Holders],
    taken: &mut Vec<Taken>,
    name: &[u8],
) -> Result<(), AllocError>
    ensures { OnOk result (taken.new.items ≡ with_module (facts_of world.now) holders.now taken.old.items name.now) }
{
    taken.push(Taken::Removed(Text::new(alloc, name)?))?;
    let needs = needs_of(alloc, world, name)?;
    push_needs(alloc, world, holders, name, taken, &needs)
}

/// Adds what the removal of a module does: it goes, with what it needs that nothing uses then, or its command runs. It fails
/// only if memory runs out.
pub fn push_taken(
    asked: &Asked,
    holders: &[Holders],
    taken: &mut Vec<Taken>,
    object: &Object,
) -> Result<(), AllocError>
    ensures { OnOk result (taken.new.items ≡ with_object (facts_of asked.now.world) holders.now asked.now.query taken.old.items (object_of object.now)) }
{
    let alloc = asked.alloc;
    match removal_command(asked, object)? {
        Some(command) => {
            let name = Text::new(alloc, &object.name)?;
            taken.push(Taken::Commanded(name, Text::new(alloc, command)?))?;
            Ok(())
        }
        None => push_module(alloc, &asked.world, holders, taken, &object.name),
    }
}

fn push_line(lines: &mut Vec<u8>, own: &Taken) -> Result<(), AllocError>
    ensures { OnOk result (lines.new.items ≡ lines.old.items ++ line_of own.now) }
{
    match own {
        Taken::Removed(name) | Taken::Unused(name, _) => push_name(
            lines,
            b"rmmod ",
            name.as_bytes(),
        ),
        Taken::Commanded(_, command) => push_command(lines, command.as_bytes()),
    }
}

/// A line for each thing that a removal does, if lines are shown.
pub(crate) fn lines_of(alloc: Global, query: &Query, taken: &[Taken]) -> Result<Vec<u8>, AllocError>
    ensures { IfOk result (λ lines. lines.items ≡ lines_of query.now taken.now) }
{
    let mut lines = Vec::new(alloc);
    if !shows_removal(query) {
        return Ok(lines);
    }
    'taken: for own in taken {
        push_line(&mut lines, own)?;
    }
    Ok(lines)
}
