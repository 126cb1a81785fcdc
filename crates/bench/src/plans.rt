//! Plans in a catalogue of 1,024 modules with three hard dependencies each, and a look-up over 26,000 aliases.

use crate::figure::{print_figure, print_turns_since};
use crate::patterns::{DEVICE, aliases};
use crate::texts::{numbered_catalogue, plain_catalogue, push_numbered, text_of};
use anyhow::Result;
use dep_index::read_dep;
use load_plan::{PlanError, Sources, find, plan, removal_plan};
use modprobe_conf::{Conf, read_conf};
use std::alloc::{AllocError, Global};
use std::rt::Clock;
use std::time::Instant;

const MODULES: usize = 1024;

/// How far behind a module its dependencies stand; those behind the last module are left out.
static STEPS: [usize; 3] = [1, 7, 40];

const PLANS: usize = 500;

const LOOKUPS: usize = 50;

/// As large as a kernel's modules.alias text. Once a buffer of this size was freed, as behind the reading of such a text,
/// the C library keeps so much of its heap; before, it gives it back to the kernel behind each long plan (mallopt(3)).
const TEXT_BYTES: usize = 1 << 20;

/// What is asked of a module.
enum Asked {
    Load(&'static [u8]),
    Removal(&'static [u8]),
}

/// The plans that are measured, with the names of their figures: by symbols, and by modules.dep.
static BY_SYMBOLS: [(&str, Asked); 2] = [
    ("plan_by_symbols", Asked::Load(b"module_0")),
    ("short_plan_by_symbols", Asked::Load(b"module_1000")),
];

static BY_PATHS: [(&str, Asked); 3] = [
    ("plan_by_modules_dep", Asked::Load(b"module_0")),
    ("short_plan_by_modules_dep", Asked::Load(b"module_1000")),
    ("removal_plan_by_modules_dep", Asked::Removal(b"module_0")),
];

pub fn measure<R: Print + Clock + AllocGlobal>(rt: &R) -> Result<()> {
    drop(Vec::<u8>::with_capacity(rt.alloc(), TEXT_BYTES)?);
    let configuration = configuration(rt.alloc())?;
    measure_symbols(rt, &configuration)?;
    measure_paths(rt, &configuration)
}

fn configuration(alloc: Global) -> Result<Conf, AllocError> {
    let settings = text_of(alloc, "", MODULES, push_settings)?;
    read_conf(alloc, settings.as_bytes())
}

/// Measures over hard dependencies in the catalogue, as symbols.
fn measure_symbols<R: Print + Clock + AllocGlobal>(rt: &R, configuration: &Conf) -> Result<()> {
    let catalogue = numbered_catalogue(rt.alloc(), MODULES, push_module)?;
    let dependencies = read_dep(rt.alloc(), b"")?;
    let sources = Sources {
        catalogue: &catalogue,
        dependencies: &dependencies,
        configuration,
    };
    measure_plans(rt, &sources, &BY_SYMBOLS)
}

/// Measures over hard dependencies in modules.dep.
fn measure_paths<R: Print + Clock + AllocGlobal>(rt: &R, configuration: &Conf) -> Result<()> {
    let catalogue = plain_catalogue(rt.alloc(), MODULES)?;
    let paths = text_of(rt.alloc(), "", MODULES, push_paths)?;
    let dependencies = read_dep(rt.alloc(), paths.as_bytes())?;
    let sources = Sources {
        catalogue: &catalogue,
        dependencies: &dependencies,
        configuration,
    };
    measure_plans(rt, &sources, &BY_PATHS)?;
    measure_find(rt, &sources)
}

fn measure_plans<R: Print + Clock + AllocGlobal>(
    rt: &R,
    sources: &Sources,
    plans: &[(&str, Asked)],
) -> Result<()> {
    for (name, asked) in plans {
        let start = Instant::now(rt)?;
        let items = items_of(rt.alloc(), sources, asked)?;
        print_turns_since(rt, *name, PLANS, start)?;
        let each = items / PLANS;
        print_figure(rt, format_args!("{name}_items"), each as u128, "items")?;
    }
    Ok(())
}

/// Plans again and again. How many modules there were in all.
fn items_of(alloc: Global, sources: &Sources, asked: &Asked) -> Result<usize, PlanError> {
    let mut items: usize = 0;
    for _ in 0..PLANS {
        let each = match asked {
            Asked::Load(module) => plan(alloc, module, &[], sources)?.len(),
            Asked::Removal(module) => removal_plan(alloc, module, sources)?.len(),
        };
        items = items.wrapping_add(each);
    }
    Ok(items)
}

fn measure_find<R: Print + Clock + AllocGlobal>(rt: &R, sources: &Sources) -> Result<()> {
    let aliases = aliases(rt.alloc())?;
    let start = Instant::now(rt)?;
    for _ in 0..LOOKUPS {
        find(
            rt.alloc(),
            DEVICE,
            sources.catalogue,
            sources.configuration,
            &aliases,
        )?;
    }
    print_turns_since(rt, "find_in_26000_aliases", LOOKUPS, start)
}

/// Adds the lines of a module, with its dependencies.
fn push_module(text: &mut String, slot: usize) -> Result<(), AllocError> {
    writeln!(text, "module module_{slot}\nexports symbol_{slot}")?;
    push_dependencies(text, slot, "needs symbol_", "\n")
}

/// Adds a module's line of modules.dep.
fn push_paths(text: &mut String, slot: usize) -> Result<(), AllocError> {
    write!(text, "kernel/drivers/module_{slot}.ko:")?;
    push_dependencies(text, slot, " kernel/drivers/module_", ".ko")?;
    text.push_str("\n")
}

/// Adds the number of each of a module's dependencies, between these two texts.
fn push_dependencies(
    text: &mut String,
    slot: usize,
    before: &str,
    after: &str,
) -> Result<(), AllocError> {
    for step in &STEPS {
        let dependency = slot.saturating_add(*step);
        if dependency < MODULES {
            write!(text, "{before}{dependency}{after}")?;
        }
    }
    Ok(())
}

/// Adds an options line for every eighth module, and a softdep line for every sixteenth.
fn push_settings(text: &mut String, slot: usize) -> Result<(), AllocError> {
    let lines = match slot % 16 {
        0 => "options module_@ debug=1 level=3\nsoftdep module_@ pre: other_@\n",
        8 => "options module_@ debug=1 level=3\n",
        _ => "",
    };
    push_numbered(text, lines, slot)
}
