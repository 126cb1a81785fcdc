//! Who needs whom, as modules.dep says.
ghost use Rattle.std.specs.Prelude.{◌≡◌, IfOk};
ghost use Rattle.std.specs.List.{list_any};
ghost use Rattle.std.specs.Str.{bytes_eq};
ghost use Rattle.kmod_index.specs.Needs.{carriers, has_need, is_nearest, is_needing, nearest, needing};

use crate::dep_line::DepLine;
use crate::index::Index;
use kmod_names::Text;
use std::alloc::{AllocError, Global};
use text_parts::is_same;

/// Whether a name is among others.
fn is_among(names: &[Text], name: &[u8]) -> bool
    ensures { result ≡ list_any (bytes_eq name.now) names.now }
{
    names.iter().any(|own| is_same(name, own.as_bytes()))
}

/// Whether the needs of a line have a module.
fn is_needing(alloc: Global, line: &DepLine<'_>, name: &[u8]) -> Result<bool, AllocError>
    ensures { IfOk result (λ needs. needs ≡ is_needing name.now line.now) }
{
    Ok(is_among(&line.needed_names(alloc)?, name))
}

impl Index<'_> {
    /// The lines of modules.dep of the modules that need the module of this name, in order. Names have `_` for each `-`. It
    /// fails only if memory runs out.
    pub fn needing(&self, alloc: Global, name: &[u8]) -> Result<Vec<DepLine<'_>>, AllocError>
        ensures { IfOk result (λ lines. lines.items ≡ needing self.now.dependencies name.now) }
    {
        let lines = self.dep_lines(alloc)?;
        let mut found = Vec::new(alloc);
        'lines: for line in lines.into_iter() {
            if is_needing(alloc, &line, name)? {
                found.push(line)?;
            }
        }
        Ok(found)
    }

    /// Whether a module needs another one.
    fn has_need(&self, alloc: Global, name: &[u8], need: &[u8]) -> Result<bool, AllocError>
        ensures { IfOk result (λ has. has ≡ has_need self.now.dependencies name.now need.now) }
    {
        Ok(is_among(&self.hard_needs(alloc, name)?, need))
    }

    /// Those of some modules that need a module.
    fn carriers(
        &self,
        alloc: Global,
        modules: &[Text],
        need: &[u8],
    ) -> Result<Vec<Text>, AllocError>
        ensures { IfOk result (λ names. names.items ≡ carriers self.now.dependencies modules.now need.now) }
    {
        let mut found = Vec::new(alloc);
        'modules: for own in modules {
            if self.has_need(alloc, own.as_bytes(), need)? {
                found.push(Text::new(alloc, own.as_bytes())?)?;
            }
        }
        Ok(found)
    }

    /// Whether a module needs none of these.
    fn is_nearest(&self, alloc: Global, others: &[Text], name: &[u8]) -> Result<bool, AllocError>
        ensures { IfOk result (λ is. is ≡ is_nearest self.now.dependencies others.now name.now) }
    {
        'others: for other in others {
            if self.has_need(alloc, name, other.as_bytes())? {
                return Ok(false);
            }
        }
        Ok(true)
    }

    /// Through which of some modules another one is needed: those that need it, without those that need it only as they need
    /// another of them, in order. If these are the needs of one module and none is answered, that module needs it itself. Names
    /// have `_` for each `-`. It fails only if memory runs out.
    pub fn nearest(
        &self,
        alloc: Global,
        modules: &[Text],
        need: &[u8],
    ) -> Result<Vec<Text>, AllocError>
        ensures { IfOk result (λ names. names.items ≡ nearest self.now.dependencies modules.now need.now) }
    {
        let carriers = self.carriers(alloc, modules, need)?;
        let mut found = Vec::new(alloc);
        'carriers: for own in &carriers {
            if self.is_nearest(alloc, &carriers, own.as_bytes())? {
                found.push(Text::new(alloc, own.as_bytes())?)?;
            }
        }
        Ok(found)
    }
}
