//! All lines of a configuration.
ghost use Rattle.std.specs.Prelude.{◌≡◌, ◌++◌, map, IfOk, OnOk};
ghost use Rattle.machine_lint.specs.Lines.{lines_of, of_alias, of_name, of_softdep, of_text, of_weakdep};

use crate::line::Line;
use crate::setting::Setting;
use kmod_conf::{Conf, NameLine, SoftdepLine, TextLine, WeakdepLine};
use kmod_names::AliasEntry;
use std::alloc::{AllocError, Global};

fn add_aliases(alloc: Global, all: &mut Vec<Line>, lines: &[AliasEntry]) -> Result<(), AllocError>
    ensures { OnOk result (all.new.items ≡ all.old.items ++ map of_alias lines.now) }
{
    for line in lines {
        all.push(Line::of_alias(alloc, line)?)?;
    }
    Ok(())
}

/// Adds lines that have a name alone.
fn add_names(
    alloc: Global,
    all: &mut Vec<Line>,
    setting: Setting,
    lines: &[NameLine],
) -> Result<(), AllocError>
    ensures { OnOk result (all.new.items ≡ all.old.items ++ map (of_name setting) lines.now) }
{
    for line in lines {
        all.push(Line::of_name(alloc, setting, line)?)?;
    }
    Ok(())
}

/// Adds lines that have a name and a text.
fn add_texts(
    alloc: Global,
    all: &mut Vec<Line>,
    setting: Setting,
    lines: &[TextLine],
) -> Result<(), AllocError>
    ensures { OnOk result (all.new.items ≡ all.old.items ++ map (of_text setting) lines.now) }
{
    for line in lines {
        all.push(Line::of_text(alloc, setting, line)?)?;
    }
    Ok(())
}

fn add_softdeps(alloc: Global, all: &mut Vec<Line>, lines: &[SoftdepLine]) -> Result<(), AllocError>
    ensures { OnOk result (all.new.items ≡ all.old.items ++ map of_softdep lines.now) }
{
    for line in lines {
        all.push(Line::of_softdep(alloc, line)?)?;
    }
    Ok(())
}

fn add_weakdeps(alloc: Global, all: &mut Vec<Line>, lines: &[WeakdepLine]) -> Result<(), AllocError>
    ensures { OnOk result (all.new.items ≡ all.old.items ++ map of_weakdep lines.now) }
{
    for line in lines {
        all.push(Line::of_weakdep(alloc, line)?)?;
    }
    Ok(())
}

/// All lines of a configuration, kind by kind. It fails only out of memory.
#[tactic(auto, unfolding(crate::specs::Lines::lines_of))]
pub(crate) fn lines_of(alloc: Global, conf: &Conf) -> Result<Vec<Line>, AllocError>
    ensures { IfOk result (λ all. all.items ≡ lines_of conf.now) }
{
    let mut all = Vec::new(alloc);
    add_aliases(alloc, &mut all, conf.aliases())?;
    add_names(alloc, &mut all, Setting::Blacklist, conf.blacklist())?;
    add_texts(alloc, &mut all, Setting::Options, conf.options())?;
    add_texts(alloc, &mut all, Setting::Install, conf.installs())?;
    add_texts(alloc, &mut all, Setting::Remove, conf.removes())?;
    add_softdeps(alloc, &mut all, conf.softdeps())?;
    add_weakdeps(alloc, &mut all, conf.weakdeps())?;
    add_names(alloc, &mut all, Setting::Bad, conf.bad())?;
    Ok(all)
}
