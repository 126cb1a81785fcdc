//! The lines of a modules.dep text where they stand, for some look-ups.
ghost use Rattle.std.specs.Prelude.{◌≡◌, IfOk};
ghost use Rattle.std.specs.Str.{bytes_eq};
ghost use Rattle.kmod_index.specs.Dependencies.{dependencies_of, line_of, name_of};
ghost use Rattle.kmod_index.specs.Sums.{sum_of, sums_of};

use crate::dep_line::DepLine;
use crate::dep_scan::dep_lines;
use crate::path_names::{is_name_of_path, sum_of, sum_of_path};
use std::alloc::{AllocError, Global};
use std::marker::Model;

/// The lines of a modules.dep text in order, and the sums of their modules' names: a line of another sum is passed over
/// unread. Contracts see the lines.
#[derive(Drop)]
pub struct DepTable<'a> {
    lines: Vec<DepLine<'a>>,
    sums: Vec<u32>,
}

impl<'a> Model for DepTable<'a> {
    ghost use Rattle.std.specs.Prelude.{◌≡◌, List};
    ghost use Rattle.kmod_index.specs.Dependencies.{Dependencies};
    ghost use Rattle.kmod_index.specs.Sums.{sums_of};

    ghost Value = { List Dependencies };

    ghost view = { λ table. table.lines.items };

    ghost invariant = { λ table. table.sums.items ≡ sums_of table.lines.items };
}

/// The sums of the names of the lines' modules.
fn sums_of(alloc: Global, lines: &[DepLine<'_>]) -> Result<Vec<u32>, AllocError>
    ensures { IfOk result (λ sums. sums.items ≡ sums_of lines.now) }
{
    let mut sums = Vec::with_capacity(alloc, lines.len())?;
    'lines: for line in lines {
        sums.push(sum_of_path(line.path()))?;
    }
    Ok(sums)
}

/// Whether a line's module has a name, by the sums of both.
#[tactic(auto, using(crate::proofs::SumLemmas::other_name))]
fn is_line_of(line: &DepLine<'_>, own: u32, name: &[u8], sum: u32) -> bool
    requires own { own ≡ sum_of (name_of line.now) }
    requires sum { sum ≡ sum_of name.now }
    ensures { result ≡ bytes_eq name.now (name_of line.now) }
{
    own == sum && is_name_of_path(name, line.path())
}

impl<'a> DepTable<'a> {
    /// The lines of a whole modules.dep text. It fails only if memory runs out.
    pub fn read(alloc: Global, text: &'a [u8]) -> Result<DepTable<'a>, AllocError>
        ensures { IfOk result (λ table. table ≡ dependencies_of text.entry.now) }
    {
        let lines = dep_lines(alloc, text)?;
        let sums = sums_of(alloc, &lines)?;
        Ok(DepTable { lines, sums })
    }

    /// The first line of the module of this name, None if it has none. Names have `_` for each `-`.
    pub(crate) fn find(&self, name: &[u8]) -> Option<DepLine<'a>>
        ensures { result ≡ line_of self.now name.now }
    {
        let sum = sum_of(name);
        'lines: for place in 0..self.sums.len() {
            let line = &self.lines[place];
            if is_line_of(line, self.sums[place], name, sum) {
                return Some(line.again());
            }
        }
        None
    }
}
