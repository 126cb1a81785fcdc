//! What is read of a machine.
ghost use Rattle.std.specs.Prelude.{◌≡◌};
ghost use Rattle.gz_modprobe_drive.specs.Answered.{known_by, known_of};

use crate::evidence::Evidence;
use crate::shape::Shape;
use kmod_conf::Conf;
use kmod_index::Index;
use kmod_query::{PathWord, States, World};
use modprobe_files::{ConfTexts, LaterTexts, ModuleTexts};

/// All that is read for a query.
#[derive(Clone, Copy)]
pub(crate) struct Machine<'a> {
    pub(crate) conf: &'a ConfTexts,
    pub(crate) modules: &'a ModuleTexts,
    pub(crate) later: &'a LaterTexts,
    pub(crate) states: &'a States,
    /// The folder of modules, as it is printed.
    pub(crate) directory: &'a [u8],
    /// The words of the query that are paths, and what stands there.
    pub(crate) paths: &'a [PathWord],
    pub(crate) evidence: &'a Evidence,
    /// Whether a removal is answered as it is made, and not as a dry run shows it.
    pub(crate) whole: bool,
    /// What standard output gets of the answer.
    pub(crate) shape: Shape,
    /// The folder that stands for `/`, empty for the machine itself.
    pub(crate) root: &'a [u8],
}

/// What queries are answered from, by its parts. No module has a file of its own.
pub(crate) fn world_of<'a>(
    conf: &'a Conf,
    index: &'a Index<'a>,
    states: &'a States,
    directory: &'a [u8],
    paths: &'a [PathWord],
) -> World<'a>
    ensures { known_of result ≡ known_by conf.now index.now states.now directory.now paths.now }
{
    World {
        conf,
        index,
        states,
        directory,
        paths,
        own: None,
    }
}
